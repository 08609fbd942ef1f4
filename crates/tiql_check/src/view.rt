//! Views.
ghost use Rattle.std.specs.Prelude.{◌≡◌, [], IfOk, map};
ghost use Rattle.tiql_check.specs.Turns.{ChecksTo, ChecksInto, in_turn};
ghost use Rattle.tiql_check.specs.Views as spec;

use crate::SoundFault;
use crate::condition::differ;
use crate::item::ItemColumn;
use crate::known::{Known, is_taken};
use crate::select::{Arm, check_select};
use base_kit::{Duplicate, List, Memory, Place};
use std::alloc::Global;
use tiql_query::{Column, QView, Select};
use tiql_tree::{TreeSelect, TreeView};

/// The first selects of a view, with the columns of all of them.
#[derive(Debug, Drop)]
pub struct Arms {
    /// These selects.
    pub arms: List<Select>,
    /// The columns: named by the first select, and unknown where one of the selects has them so.
    pub columns: List<Column>,
}

// The columns as the first select has them.
fn first_columns(alloc: Global, items: &[ItemColumn]) -> Result<List<Column>, Memory>
    ensures columns { IfOk result (λ made. made ≡ map spec.first_column items.now) }
{
    let mut made = List::new(alloc);
    for item in items {
        made.push(Column {
            name: item.name.copy(alloc)?,
            text: item.kind.text,
            unknown: item.kind.unknown,
        })?;
    }
    Ok(made)
}

// A later select has the same type there. A column is unknown where one select has it so.
fn add_joined(
    alloc: Global,
    columns: &[Column],
    before: &mut List<Column>,
    item: &ItemColumn,
) -> Result<(), SoundFault>
    ensures { ChecksInto (spec.with_joined columns.now before.old item.now) before.new result }
{
    match columns.get(before.len()) {
        None => Err(SoundFault::WrongType(item.place)),
        Some(column) => {
            if differ(column.text, item.kind.text) {
                return Err(SoundFault::WrongType(item.place));
            }
            before.push(Column {
                name: column.name.copy(alloc)?,
                text: column.text,
                unknown: column.unknown || item.kind.unknown,
            })?;
            Ok(())
        }
    }
}

fn join_columns(
    alloc: Global,
    columns: &[Column],
    items: &[ItemColumn],
) -> Result<List<Column>, SoundFault>
    ensures { ChecksTo (in_turn (spec.with_joined columns.now) [] items.now) result }
{
    let mut before = List::new(alloc);
    for item in items {
        add_joined(alloc, columns, &mut before, item)?;
    }
    Ok(before)
}

// The columns of a view with one more select, which has as many.
#[tactic(auto, unfolding(crate::specs::Views::joined))]
fn joined(
    alloc: Global,
    first: bool,
    columns: &[Column],
    place: Place,
    items: &[ItemColumn],
) -> Result<List<Column>, SoundFault>
    ensures { ChecksTo (spec.joined first columns.now place items.now) result }
{
    if first {
        return Ok(first_columns(alloc, items)?);
    }
    if columns.len() != items.len() {
        return Err(SoundFault::WrongType(place));
    }
    join_columns(alloc, columns, items)
}

#[tactic(auto, unfolding(crate::specs::Views::with_arm))]
fn add_arm(
    alloc: Global,
    known: &Known,
    before: &mut Arms,
    tree: &TreeSelect,
) -> Result<(), SoundFault>
    ensures { ChecksInto (spec.with_arm known.now before.old tree.now) before.new result }
{
    let first = before.arms.is_empty();
    let Arm {
        select: arm,
        columns: items,
    } = check_select(alloc, known, first, tree)?;
    before.columns = joined(
        alloc,
        first,
        before.columns.as_slice(),
        tree.place,
        items.as_slice(),
    )?;
    before.arms.push(arm)?;
    Ok(())
}

fn check_arms(alloc: Global, known: &Known, trees: &[TreeSelect]) -> Result<Arms, SoundFault>
    ensures { ChecksTo (in_turn (spec.with_arm known.now) spec.no_arms trees.now) result }
{
    let mut before = Arms {
        arms: List::new(alloc),
        columns: List::new(alloc),
    };
    for tree in trees {
        add_arm(alloc, known, &mut before, tree)?;
    }
    Ok(before)
}

/// A view.
#[tactic(auto, unfolding(crate::specs::Views::checked_view))]
pub fn check_view(alloc: Global, known: &Known, tree: &TreeView) -> Result<QView, SoundFault>
    ensures { ChecksTo (spec.checked_view known.now tree.now) result }
{
    if is_taken(known, &tree.name) {
        return Err(SoundFault::SameName(tree.name.place));
    }
    let all = check_arms(alloc, known, tree.arms.as_slice())?;
    Ok(QView {
        name: tree.name.name.copy(alloc)?,
        columns: all.columns,
        arms: all.arms,
    })
}

//! Hypothetical tables.
ghost use Rattle.std.specs.Prelude.{◌≡◌, [], IfOk};
ghost use Rattle.tiql_query.specs.WellFormed as query;
ghost use Rattle.tiql_check.specs.Hypos as spec;
ghost use Rattle.tiql_check.specs.Scopes.{scope_of, column_named};
ghost use Rattle.tiql_check.specs.Turns.{ChecksTo, ChecksInto, in_turn};

use crate::SoundFault;
use crate::condition::check_filter;
use crate::expression::check_number;
use crate::known::{Known, find_relation, is_taken};
use crate::number::number_of;
use crate::scope::{InScope, find_column};
use crate::table::is_among;
use base_kit::{Duplicate, List, Memory, Place};
use std::alloc::Global;
use tiql_query::{Column, QBound, QHypo, QTable, Source};
use tiql_tree::{Spot, TreeBound, TreeHypo};

// The number of the table behind FROM, which has to be a declared one.
fn base_number(known: &Known, spot: &Spot) -> Result<u32, SoundFault>
    ensures { result ≡ spec.base_number known.now spot.now }
{
    match find_relation(known.relations.as_slice(), &spot.name) {
        None => Err(SoundFault::UnknownName(spot.place)),
        Some(source) => match source {
            Source::Table(number) => Ok(number),
            Source::Hypo(_) => Err(SoundFault::UnknownName(spot.place)),
            Source::View(_) => Err(SoundFault::UnknownName(spot.place)),
        },
    }
}

fn is_set(number: u32, set: &[QBound]) -> bool
    ensures { result ≡ spec.is_set number set.now }
{
    set.iter().any(|bound| bound.column == number)
}

// SET names columns of the table, each once, none of the KEY, and no texts.
fn set_column(table: &QTable, before: &[QBound], name: &Spot) -> Result<u32, SoundFault>
    ensures { ChecksTo (spec.set_column table.now before.now name.now (column_named name.now.name 0 table.now.columns)) result }
{
    match find_column(table.columns.as_slice(), &name.name)? {
        None => Err(SoundFault::UnknownName(name.place)),
        Some(found) => {
            if is_set(found.number, before) {
                return Err(SoundFault::SameName(name.place));
            }
            if is_among(found.number, table.key.as_slice()) {
                return Err(SoundFault::KeyUnknown(name.place));
            }
            if found.kind.text {
                return Err(SoundFault::WrongType(name.place));
            }
            Ok(found.number)
        }
    }
}

// Bounds are whole numbers.
fn add_bound(
    alloc: Global,
    scope: &[InScope<'_>],
    table: &QTable,
    before: &mut List<QBound>,
    bound: &TreeBound,
) -> Result<(), SoundFault>
    ensures { ChecksInto (spec.with_bound (scope_of scope.now) table.now before.old bound.now) before.new result }
{
    let column = set_column(table, before.as_slice(), &bound.name)?;
    let lo = check_number(alloc, scope, &bound.lo)?;
    let hi = check_number(alloc, scope, &bound.hi)?;
    before.push(QBound {
        column,
        lo: lo.expr,
        hi: hi.expr,
    })?;
    Ok(())
}

fn check_bounds(
    alloc: Global,
    scope: &[InScope<'_>],
    table: &QTable,
    trees: &[TreeBound],
) -> Result<List<QBound>, SoundFault>
    ensures { ChecksTo (in_turn (spec.with_bound (scope_of scope.now) table.now) [] trees.now) result }
{
    let mut before = List::new(alloc);
    for bound in trees {
        add_bound(alloc, scope, table, &mut before, bound)?;
    }
    Ok(before)
}

// The table's columns, of which the set ones are unknown.
fn columns_with(alloc: Global, set: &[QBound], columns: &[Column]) -> Result<List<Column>, Memory>
    ensures columns { IfOk result (λ made. made ≡ query.with_set set.now 0 columns.now) }
{
    let mut made = List::new(alloc);
    for (number, column) in columns.iter().enumerate() {
        made.push(Column {
            name: column.name.copy(alloc)?,
            text: column.text,
            unknown: is_set(number_of(number)?, set),
        })?;
    }
    Ok(made)
}

// Only rows of a table with a KEY may be left out.
fn droppable(table: &QTable, dropped: Option<Place>) -> Result<bool, SoundFault>
    ensures { result ≡ spec.droppable table.now dropped }
{
    match dropped {
        None => Ok(false),
        Some(place) => match table.key.as_slice() {
            [] => Err(SoundFault::KeyMissing(place)),
            [_, ..] => Ok(true),
        },
    }
}

// Over the table with this number.
#[tactic(auto, unfolding(crate::specs::Hypos::over_table, crate::specs::Scopes::scope_of))]
fn over_table(
    alloc: Global,
    number: u32,
    table: &QTable,
    tree: &TreeHypo,
) -> Result<QHypo, SoundFault>
    ensures { ChecksTo (spec.over_table number table.now tree.now) result }
{
    let scope = [InScope {
        alias: None,
        columns: table.columns.as_slice(),
    }];
    let set = check_bounds(alloc, &scope, table, tree.set.as_slice())?;
    let filter = check_filter(alloc, &scope, &tree.filter)?;
    let droppable = droppable(table, tree.dropped)?;
    Ok(QHypo {
        name: tree.name.name.copy(alloc)?,
        table: number,
        columns: columns_with(alloc, set.as_slice(), table.columns.as_slice())?,
        set,
        filter,
        droppable,
    })
}

/// A hypothetical table.
#[tactic(auto, unfolding(crate::specs::Hypos::checked_hypo))]
pub fn check_hypo(alloc: Global, known: &Known, tree: &TreeHypo) -> Result<QHypo, SoundFault>
    ensures { ChecksTo (spec.checked_hypo known.now tree.now) result }
{
    if is_taken(known, &tree.name) {
        return Err(SoundFault::SameName(tree.name.place));
    }
    let number = base_number(known, &tree.table)?;
    match known.query.tables.get(number as usize) {
        None => Err(SoundFault::UnknownName(tree.table.place)),
        Some(table) => over_table(alloc, number, table, tree),
    }
}

//! The groups of a select over possible rows.

ghost use Rattle.std.specs.Prelude.{◌≡◌, ◌∷◌, [], length, map, All, IfOk, unwrap_or};
ghost use Rattle.std.specs.List.{list_any};
ghost use Rattle.prov_fold.specs.Graphs.{HasTruth};
ghost use Rattle.sym_rows.specs.Cells.{AreRowsOf};
ghost use Rattle.sym_rows.specs.Walks.{Makes};
ghost use Rattle.view_select.specs.Selects as plain;
ghost use Rattle.sym_groups.specs.Groups as spec;
ghost use Rattle.sym_groups.specs.Meanings as meaning;
ghost use Rattle.sym_groups.specs.Together.{lent_rows};

use crate::distinct::{FALSE, add, presence_of};
use crate::items::item_cells;
use crate::keys::first_values;
use crate::rows::{together, whole};
use base_kit::{List, Memory};
use prov_fold::Fold;
use std::alloc::Global;
use sym_rows::{SymRow, WalkFault, truth};
use tiql_query::{At, Column, Item, Select};

/// The possible rows of the groups of a select (docs/FORMULAS.md, "The walk"): `rows` are what its combinations left, the values of GROUP BY
/// and behind them the arguments of SUM, MIN and MAX in item order, and `columns` are those of the view. The groups come in rising order of
/// their values, and without GROUP BY all rows are one group. A group is there where one of its rows is, and in every world where there is no
/// GROUP BY and no MIN or MAX; one that is nowhere there has no row. It is `Wide` where the constant or an end of the range of a sum passes
/// 10^17 in size, `Full` where the list of formulas is full, and `Memory` where memory is wanting; what was appended stays.
pub fn group_rows(
    alloc: Global,
    fold: &mut Fold<'_>,
    columns: &List<Column>,
    select: &Select,
    rows: &List<SymRow>,
) -> Result<List<SymRow>, WalkFault>
    requires { AreRowsOf fold.old rows.now }
    ensures { Makes (spec.group_rows columns.now select.now rows.now fold.old) (meaning.AreGroupsOf columns.now select.now rows.now) (meaning.AreGroups columns.now select.now rows.now) fold.old result fold.new }
{
    let keys = keys_of(select);
    let items = select.items.as_slice();
    let groups = groups_in(alloc, fold, keys.len(), rows.as_slice())?;
    rows_of_groups(
        alloc,
        fold,
        columns.as_slice(),
        keys,
        items,
        groups.as_slice(),
    )
}

/// The columns of GROUP BY.
fn keys_of(select: &Select) -> &[At]
    ensures { result.now ≡ spec.keys_of select.now }
{
    match &select.group {
        Some(keys) => keys.as_slice(),
        None => &[],
    }
}

/// The groups by so many first values, one of all rows where there are none.
#[tactic(auto, unfolding(crate::specs::Groups::groups_in))]
fn groups_in<'a>(
    alloc: Global,
    fold: &Fold<'_>,
    count: usize,
    rows: &'a [SymRow],
) -> Result<Vec<Vec<&'a SymRow>>, Memory>
    requires { AreRowsOf fold.now rows.now }
    ensures { IfOk result (λ made. map lent_rows made.items ≡ spec.groups_in count fold.now rows.now) }
{
    if count == 0 {
        return whole(alloc, rows);
    }
    let keys = first_values(alloc, fold, rows, count)?;
    together(alloc, keys.as_slice(), rows)
}

/// A row for each group.
fn rows_of_groups(
    alloc: Global,
    fold: &mut Fold<'_>,
    columns: &[Column],
    keys: &[At],
    items: &[Item],
    groups: &[Vec<&SymRow>],
) -> Result<List<SymRow>, WalkFault>
    requires { All (AreRowsOf fold.old) (map lent_rows groups.now) }
    ensures { Makes (spec.rows_of (spec.group_row columns.now keys.now items.now) (map lent_rows groups.now) fold.old) AreRowsOf (meaning.AreRowsWhere (meaning.group_there keys.now items.now) (λ group v. meaning.items_then v columns.now keys.now items.now group) (map lent_rows groups.now)) fold.old result fold.new }
{
    let mut made = List::new(alloc);
    for group in groups {
        let row = group_row(alloc, fold, columns, keys, items, group.as_slice())?;
        add(&mut made, row)?;
    }
    Ok(made)
}

/// The row of a group; none where it can't be there.
#[tactic(auto, unfolding(crate::specs::Groups::group_row))]
fn group_row(
    alloc: Global,
    fold: &mut Fold<'_>,
    columns: &[Column],
    keys: &[At],
    items: &[Item],
    group: &[&SymRow],
) -> Result<Option<SymRow>, WalkFault>
    requires { AreRowsOf fold.old (map (λ row. row.now) group.now) }
    ensures { Makes (spec.group_row columns.now keys.now items.now (map (λ row. row.now) group.now) fold.old) meaning.IsMaybeRowOf (meaning.IsRowWhere (meaning.group_there keys.now items.now (map (λ row. row.now) group.now)) (λ v. meaning.items_then v columns.now keys.now items.now (map (λ row. row.now) group.now))) fold.old result fold.new }
{
    let presence = group_presence(alloc, fold, is_sure(keys, items), group)?;
    if presence == FALSE {
        return Ok(None);
    }
    let cells = item_cells(alloc, fold, columns, keys, items, group)?;
    Ok(Some(SymRow { presence, cells }))
}

/// The truth that a group is there.
#[tactic(auto, unfolding(crate::specs::Groups::group_presence))]
fn group_presence(
    alloc: Global,
    fold: &mut Fold<'_>,
    sure: bool,
    group: &[&SymRow],
) -> Result<u32, WalkFault>
    requires { AreRowsOf fold.old (map (λ row. row.now) group.now) }
    ensures { Makes (spec.group_presence sure (map (λ row. row.now) group.now) fold.old) HasTruth (meaning.IsPresenceWhere (meaning.there_or sure (map (λ row. row.now) group.now))) fold.old result fold.new }
{
    if sure {
        Ok(truth(fold, true))
    } else {
        presence_of(alloc, fold, group)
    }
}

/// Whether the group of all rows is there in every world: where there is no GROUP BY, and no item is a least or a greatest.
#[tactic(auto, unfolding(crate::specs::Groups::is_sure))]
fn is_sure(keys: &[At], items: &[Item]) -> bool
    ensures { result ≡ spec.is_sure keys.now items.now }
{
    keys.is_empty() && !has_extreme(items)
}

/// Whether an item is a least or a greatest.
fn has_extreme(items: &[Item]) -> bool
    ensures { result ≡ list_any plain.is_extreme items.now }
{
    items.iter().any(is_extreme)
}

/// Of nothing there is no least and no greatest.
#[tactic(auto, unfolding(view_select::specs::Selects::is_extreme))]
fn is_extreme(item: &Item) -> bool
    ensures { result ≡ plain.is_extreme item.now }
{
    match item {
        Item::Plain(_) => false,
        Item::Sum(_) => false,
        Item::Count => false,
        Item::Min(_) => true,
        Item::Max(_) => true,
    }
}

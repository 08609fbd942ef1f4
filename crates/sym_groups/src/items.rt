//! The items of a group of possible rows.

ghost use Rattle.std.specs.Prelude.{◌≡◌, ◌+◌, ◌^◌, ◌<◌, ◌≤◌, ◌==◌, ◌&&◌, ◌∷◌, [], length, map, option_map, All, IfOk, OnOk, ◌++◌};
ghost use Rattle.std.specs.Option.{option_to_list};
ghost use Rattle.prov_fold.specs.Graphs.{HasNumber, HasTruth, HasPair};
ghost use Rattle.sym_rows.specs.Cells.{AreRowsOf, IsCellOf};
ghost use Rattle.sym_rows.specs.Hypos as hypo;
ghost use Rattle.sym_rows.specs.Walks.{Makes};
ghost use Rattle.sym_values.specs.Left.{arguments_of};
ghost use Rattle.sym_groups.specs.Aggregates as spec;
ghost use Rattle.sym_groups.specs.Meanings as meaning;

use crate::aggregates::{count_of, greatest_of, least_of, sum_of};
use base_kit::{Duplicate, List, Memory, Value};
use prov_fold::{Fold, Pair};
use std::alloc::Global;
use sym_rows::{Cell, SymRow, WalkFault, constant, is_unknown_in, number_in};
use tiql_query::{At, Column, Expr, Item};

/// The cells of the row of a group: its items in turn.
#[tactic(auto, unfolding(crate::specs::Aggregates::item_cells))]
pub(crate) fn item_cells(
    alloc: Global,
    fold: &mut Fold<'_>,
    columns: &[Column],
    keys: &[At],
    items: &[Item],
    group: &[&SymRow],
) -> Result<List<Cell>, WalkFault>
    requires { AreRowsOf fold.old (map (λ row. row.now) group.now) }
    ensures { Makes (spec.item_cells columns.now keys.now items.now (map (λ row. row.now) group.now) fold.old) (λ g made. All (IsCellOf g) made) (meaning.AreItemsThen columns.now keys.now items.now (map (λ row. row.now) group.now)) fold.old result fold.new }
{
    let mut made = List::new(alloc);
    let mut place = first_place(keys, items);
    for (at, item) in items.iter().enumerate() {
        let unknown = is_unknown_in(columns, at);
        made.push(item_cell(alloc, fold, unknown, keys, place, group, item)?)?;
        place += argument_count(item);
    }
    Ok(made)
}

/// The place of the first argument, behind which there is room for an argument of each item.
fn first_place(keys: &[At], items: &[Item]) -> usize
    ensures value { result ≡ length keys.now }
    ensures room { result + length items.now < 2 ^ 64 }
{
    // That a list is not too long for its places is known where its length is asked.
    let _count = items.len();
    keys.len()
}

/// How many arguments an item has in what a combination leaves.
#[tactic(auto, unfolding(sym_values::specs::Left::arguments_of))]
fn argument_count(item: &Item) -> usize
    ensures value { result ≡ length (arguments_of (item.now ∷ [])) }
    ensures few { result ≤ 1 }
{
    match item {
        Item::Plain(_) => 0,
        Item::Sum(_) => 1,
        Item::Count => 0,
        Item::Min(_) => 1,
        Item::Max(_) => 1,
    }
}

/// The cell of an item, whose argument stands in this place of the rows.
fn item_cell(
    alloc: Global,
    fold: &mut Fold<'_>,
    unknown: bool,
    keys: &[At],
    place: usize,
    group: &[&SymRow],
    item: &Item,
) -> Result<Cell, WalkFault>
    requires { AreRowsOf fold.old (map (λ row. row.now) group.now) }
    ensures { Makes (spec.item_cell unknown keys.now place (map (λ row. row.now) group.now) item.now fold.old) IsCellOf (meaning.IsItemThen unknown keys.now place (map (λ row. row.now) group.now) item.now) fold.old result fold.new }
{
    match item {
        Item::Plain(part) => {
            let value = group_value(alloc, key_place(keys, part), group)?;
            settled(fold, unknown, value)
        }
        Item::Sum(_) => {
            let pairs = pairs_of(alloc, place, group)?;
            Ok(Cell::Number(sum_of(alloc, fold, pairs.as_slice())?))
        }
        Item::Count => {
            let truths = presences(alloc, group)?;
            Ok(Cell::Number(count_of(alloc, fold, truths.as_slice())?))
        }
        Item::Min(_) => {
            let pairs = pairs_of(alloc, place, group)?;
            Ok(Cell::Number(least_of(fold, pairs.as_slice())?))
        }
        Item::Max(_) => {
            let pairs = pairs_of(alloc, place, group)?;
            Ok(Cell::Number(greatest_of(alloc, fold, pairs.as_slice())?))
        }
    }
}

/// A value in a cell: as a constant where the column is unknown.
fn settled(fold: &mut Fold<'_>, unknown: bool, value: Value) -> Result<Cell, WalkFault>
    ensures { Makes (hypo.settled unknown value fold.old) IsCellOf (hypo.IsCellThen unknown value None) fold.old result fold.new }
{
    if unknown {
        Ok(Cell::Number(constant(fold, number_in(&value))?))
    } else {
        Ok(Cell::Fixed(value))
    }
}

/// The presences of rows.
pub(crate) fn presences(alloc: Global, group: &[&SymRow]) -> Result<Vec<u32>, Memory>
    ensures { IfOk result (λ made. made.items ≡ map (λ row. row.presence) (map (λ row. row.now) group.now)) }
{
    let mut made = Vec::new(alloc);
    for row in group {
        made.push(row.presence)?;
    }
    Ok(made)
}

/// The presences of rows beside their arguments, which stand in this place.
fn pairs_of(alloc: Global, place: usize, group: &[&SymRow]) -> Result<Vec<Pair>, Memory>
    ensures { IfOk result (λ made. made.items ≡ spec.pairs_of place (map (λ row. row.now) group.now)) }
{
    let mut made = Vec::new(alloc);
    for row in group {
        add_pair(&mut made, pair_of(place, row))?;
    }
    Ok(made)
}

/// A pair behind others, where there is one.
fn add_pair(made: &mut Vec<Pair>, pair: Option<Pair>) -> Result<(), Memory>
    ensures { OnOk result (made.new.items ≡ made.old.items ++ option_to_list pair) }
{
    match pair {
        Some(pair) => Ok(made.push(pair)?),
        None => Ok(()),
    }
}

/// The presence of a row beside its argument.
#[tactic(auto, unfolding(crate::specs::Aggregates::pair_of))]
fn pair_of(place: usize, row: &SymRow) -> Option<Pair>
    ensures { result ≡ spec.pair_of place row.now }
{
    match row.cells.get(place) {
        Some(Cell::Number(id)) => Some(Pair {
            truth: row.presence,
            number: *id,
        }),
        Some(Cell::Fixed(_)) => None,
        None => None,
    }
}

/// The place of an item's column among those of GROUP BY, and behind all of them where it is none of them.
#[tactic(auto, unfolding(crate::specs::Aggregates::key_place))]
fn key_place(keys: &[At], part: &Expr) -> usize
    ensures { result ≡ spec.key_place keys.now part.now }
{
    match part {
        Expr::Int(_) => keys.len(),
        Expr::Text(_) => keys.len(),
        Expr::Column(at) => place_of(*at, keys),
        Expr::Sum(_) => keys.len(),
        Expr::Product(_) => keys.len(),
        Expr::Neg(_) => keys.len(),
        Expr::Abs(_) => keys.len(),
    }
}

/// The place of a column among others, and behind all of them where it is none of them.
fn place_of(at: At, keys: &[At]) -> usize
    ensures { result ≡ spec.place_of at keys.now }
{
    for (place, key) in keys.iter().enumerate() {
        if is_column(*key, at) {
            return place;
        }
    }
    keys.len()
}

/// Whether two columns are one.
fn is_column(key: At, at: At) -> bool
    ensures { result ≡ (key.source == at.source && key.column == at.column) }
{
    key.source == at.source && key.column == at.column
}

/// The value that a group has in a fixed column.
#[tactic(auto, unfolding(crate::specs::Aggregates::group_value))]
fn group_value(alloc: Global, place: usize, group: &[&SymRow]) -> Result<Value, Memory>
    ensures { IfOk result (λ value. value ≡ spec.group_value place (map (λ row. row.now) group.now)) }
{
    match group {
        [] => Ok(Value::Int(0)),
        [row, ..] => fixed_in(alloc, row.cells.get(place)),
    }
}

/// The value of a fixed cell.
fn fixed_in(alloc: Global, cell: Option<&Cell>) -> Result<Value, Memory>
    ensures { IfOk result (λ value. value ≡ spec.fixed_in (option_map (λ cell. cell.now) cell.entry)) }
{
    match cell {
        Some(Cell::Fixed(value)) => value.copy(alloc),
        Some(Cell::Number(_)) => Ok(Value::Int(0)),
        None => Ok(Value::Int(0)),
    }
}

//! The columns of a program.
ghost use Rattle.std.specs.Prelude.{◌≡◌, ◌+◌, ◌<◌, ◌≤◌, ◌^◌, ◌++◌, ◌∷◌, [], map, length, All, IfOk, OnOk};
ghost use Rattle.std.specs.List.{range_with_len};
ghost use Rattle.prov_arena.specs.Formulas.{formula};
ghost use Rattle.prov_fold.specs.Graphs.{node, range, size};
ghost use Rattle.bool_encode.specs.declared.stand.Stand.TheVariants as stand;
ghost use Rattle.whole_points.specs.Matched.{has_column, own_column as own_of};
ghost use Rattle.used_columns.specs.Used.{AreUsed};
ghost use Rattle.used_columns.specs.Columns.{own_stands, marked_stands, stands_for, column_for, laid, Gives};
ghost use Rattle.used_columns.specs.Laid.{HasChoices, IsLaid};
ghost use Rattle.used_columns.specs.Places.{IsIn, kind_of};

use crate::ColumnsFault;
use crate::beside::known;
use base_kit::{List, Memory};
use bool_encode::{ColumnMap, Stand};
use ip_rows::{Bounds, ColumnKind, IpColumn};
use prov_fold::{Fold, Part};
use std::alloc::Global;

/// A program has at most so many columns.
const MOST_COLUMNS: u64 = 100_000;

/// What the columns of a program stand for, and the columns, one for each (docs/ENCODING.md).
#[derive(Debug, Drop)]
pub struct Layout {
    pub map: ColumnMap,
    pub columns: List<IpColumn>,
}

/// The columns of the world, by their sides, and behind them those of the used nodes in rising order: Pos, And and Or are switches, Guard,
/// Abs, Tot and Min values with their range, and each Min is followed by a switch for each of its pairs. There is a mark for each
/// node. `TooManyColumns` is that there would be more than 100,000 of them (docs/ENCODING.md).
pub fn columns_for(
    alloc: Global,
    fold: &Fold<'_>,
    sides: &[Bounds],
    used: &[bool],
) -> Result<Layout, ColumnsFault>
    requires count { length used.now ≡ size fold.now }
    ensures laid { Gives (laid fold.now sides.now used.now) result }
    ensures fits { IfOk result (λ layout. (seeds : _) → AreUsed fold.now seeds used.now → HasChoices fold.now sides.now → IsLaid fold.now seeds layout.map.stands layout.columns) }
{
    known(fold);
    let count = count(fold, sides.len() as u64, used)?;
    if count > MOST_COLUMNS {
        return Err(ColumnsFault::TooManyColumns { count });
    }
    let stands = stands(alloc, fold, sides.len() as u32, used)?;
    let columns = columns(alloc, fold, sides, stands.as_slice())?;
    Ok(Layout {
        map: ColumnMap { stands },
        columns,
    })
}

/// How many columns there would be.
fn count(fold: &Fold<'_>, worlds: u64, used: &[bool]) -> Result<u64, Memory>
    requires { length used.now ≡ size fold.now }
    ensures { IfOk result (λ count. count ≡ length (stands_for fold.now worlds used.now)) }
{
    let mut count = worlds;
    for id in 0..fold.prov().len() {
        if used[id as usize] {
            count = added(count, own_count(fold.prov().node(id)))?;
        }
    }
    Ok(count)
}

/// No memory holds as many pairs as would make this fail.
fn added(count: u64, more: u64) -> Result<u64, Memory>
    ensures { IfOk result (λ sum. sum ≡ count + more) }
{
    count.checked_add(more).ok_or(Memory)
}

/// How many columns a node has.
fn own_count(part: Part<'_>) -> u64
    ensures { (z : _) → result ≡ length (own_stands z (formula part.entry)) }
{
    match part {
        Part::Pos(_) => 1,
        Part::And(_) => 1,
        Part::Or(_) => 1,
        Part::Guard(..) => 1,
        Part::Abs(_) => 1,
        Part::Tot(_) => 1,
        Part::Min(pairs) => 1 + pairs.len() as u64,
        _ => 0,
    }
}

/// What the columns stand for.
fn stands(alloc: Global, fold: &Fold<'_>, worlds: u32, used: &[bool]) -> Result<List<Stand>, Memory>
    requires count { length used.now ≡ size fold.now }
    requires few { length (stands_for fold.now worlds used.now) ≤ 100000 }
    ensures { IfOk result (λ stands. stands ≡ stands_for fold.now worlds used.now) }
{
    let mut stands = world_stands(alloc, worlds)?;
    for id in 0..fold.prov().len() {
        if used[id as usize] {
            add_own(fold, &mut stands, id)?;
        }
    }
    Ok(stands)
}

/// The world's columns.
fn world_stands(alloc: Global, worlds: u32) -> Result<List<Stand>, Memory>
    ensures { IfOk result (λ stands. stands ≡ map (λ number. stand.World number) (range_with_len 0 worlds)) }
{
    let mut stands = List::new(alloc);
    for number in 0..worlds {
        stands.push(Stand::World(number))?;
    }
    Ok(stands)
}

/// Appends what the columns of a node stand for.
fn add_own(fold: &Fold<'_>, stands: &mut List<Stand>, id: u32) -> Result<(), Memory>
    requires there { id < size fold.now }
    requires few { length (own_stands id (node fold.now id)) ≤ 100000 }
    ensures { OnOk result (stands.new ≡ stands.old ++ own_stands id (node fold.now id)) }
{
    match fold.prov().node(id) {
        Part::Pos(_) => Ok(stands.push(Stand::Node(id))?),
        Part::And(_) => Ok(stands.push(Stand::Node(id))?),
        Part::Or(_) => Ok(stands.push(Stand::Node(id))?),
        Part::Guard(..) => Ok(stands.push(Stand::Node(id))?),
        Part::Abs(_) => Ok(stands.push(Stand::Node(id))?),
        Part::Tot(_) => Ok(stands.push(Stand::Node(id))?),
        Part::Min(pairs) => {
            stands.push(Stand::Node(id))?;
            add_selectors(stands, id, pairs.len() as u32)
        }
        _ => Ok(()),
    }
}

/// Appends the selectors of a Min.
fn add_selectors(stands: &mut List<Stand>, id: u32, pairs: u32) -> Result<(), Memory>
    ensures { OnOk result (stands.new ≡ stands.old ++ map (λ pair. stand.Selector id pair) (range_with_len 0 pairs)) }
{
    for pair in 0..pairs {
        stands.push(Stand::Selector { node: id, pair })?;
    }
    Ok(())
}

/// The columns of what they stand for.
fn columns(
    alloc: Global,
    fold: &Fold<'_>,
    sides: &[Bounds],
    stands: &[Stand],
) -> Result<List<IpColumn>, Memory>
    requires { All (IsIn fold.now sides.now) stands.now }
    ensures { IfOk result (λ columns. columns ≡ map (column_for fold.now sides.now) stands.now) }
{
    let mut columns = List::new(alloc);
    for stand in stands {
        columns.push(column(fold, sides, *stand))?;
    }
    Ok(columns)
}

/// The column of what it stands for.
fn column(fold: &Fold<'_>, sides: &[Bounds], stand: Stand) -> IpColumn
    requires { IsIn fold.now sides.now stand }
    ensures { result ≡ column_for fold.now sides.now stand }
{
    match stand {
        Stand::World(number) => IpColumn {
            kind: ColumnKind::World,
            sides: sides[number as usize],
        },
        Stand::Node(id) => own_column(fold, id),
        Stand::Selector { .. } => IpColumn {
            kind: ColumnKind::Switch,
            sides: Bounds { lo: 0, hi: 1 },
        },
    }
}

/// The column of a node: its range.
fn own_column(fold: &Fold<'_>, id: u32) -> IpColumn
    requires { id < size fold.now }
    ensures { result ≡ own_of fold.now id }
{
    let range = fold.range(id);
    IpColumn {
        kind: kind(fold.prov().node(id)),
        sides: Bounds {
            lo: range.lo,
            hi: range.hi,
        },
    }
}

/// Whether the column of a part is a truth or a number.
fn kind(part: Part<'_>) -> ColumnKind
    ensures { result ≡ kind_of (formula part.entry) }
{
    match part {
        Part::Pos(_) => ColumnKind::Switch,
        Part::And(_) => ColumnKind::Switch,
        Part::Or(_) => ColumnKind::Switch,
        _ => ColumnKind::Value,
    }
}

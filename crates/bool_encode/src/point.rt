//! The point of a world.
ghost use Rattle.std.specs.Prelude.{◌≡◌, ◌<◌, ◌&&◌, ◌^◌, not, take, length, map, All, IfOk};
ghost use Rattle.std.specs.List.{list_any};
ghost use Rattle.prov_arena.specs.declared.part.Pair.{Pair as ThePair};
ghost use Rattle.prov_fold.specs.Graphs.{node, size};
ghost use Rattle.prov_fold.specs.Values.{HasNumbers, number_at, values_of};
ghost use Rattle.bool_encode.specs.Points.{IsThere, HasPairAt, point_of, number_by, chosen_by, has_least, is_first};

use crate::{ColumnMap, Stand};
use base_kit::{List, Memory};
use prov_fold::{Fold, Pair, Part};
use std::alloc::Global;

/// The numbers of the columns on a world: of a world column its own, of a node its value, and of the selectors of a Min 1 at the
/// first pair that is there and has the least number, else 0. The world has a number for each of its columns that lies in
/// the column's range, and what the map stands for is there. `Err` is want of memory (docs/ENCODING.md).
#[tactic(auto, unfolding(crate::specs::Points::point_of))]
pub fn point_of(
    alloc: Global,
    fold: &Fold<'_>,
    map: &ColumnMap,
    world: &[i64],
) -> Result<List<i64>, Memory>
    requires numbers { HasNumbers fold.now world.now }
    requires there { All (IsThere fold.now world.now) map.now.stands }
    ensures point { IfOk result (λ point. point ≡ point_of fold.now map.now.stands world.now) }
{
    let values = values(alloc, fold, world)?;
    numbers(alloc, fold, world, values.as_slice(), map.stands.as_slice())
}

/// The values of all nodes.
fn values(alloc: Global, fold: &Fold<'_>, world: &[i64]) -> Result<Vec<i64>, Memory>
    requires { HasNumbers fold.now world.now }
    ensures values { IfOk result (λ values. values.items ≡ values_of world.now fold.now.parts) }
    ensures count { IfOk result (λ values. length values.items ≡ size fold.now) }
{
    let mut values = vec![in alloc; 0i64; fold.prov().len() as usize]?;
    fold.fill(world, values.as_mut_slice());
    Ok(values)
}

/// The number of each column, by the values of the nodes.
fn numbers(
    alloc: Global,
    fold: &Fold<'_>,
    world: &[i64],
    values: &[i64],
    stands: &[Stand],
) -> Result<List<i64>, Memory>
    requires there { All (IsThere fold.now world.now) stands.now }
    requires count { length values.now ≡ size fold.now }
    ensures { IfOk result (λ point. point ≡ map (number_by fold.now world.now (number_at values.now)) stands.now) }
{
    let mut point = List::new(alloc);
    for stand in stands {
        point.push(number(fold, world, values, *stand))?;
    }
    Ok(point)
}

/// The number of a column.
fn number(fold: &Fold<'_>, world: &[i64], values: &[i64], stand: Stand) -> i64
    requires there { IsThere fold.now world.now stand }
    requires count { length values.now ≡ size fold.now }
    ensures { result ≡ number_by fold.now world.now (number_at values.now) stand }
{
    match stand {
        Stand::World(column) => world[column as usize],
        Stand::Node(id) => values[id as usize],
        Stand::Selector { node, pair } => chosen(fold, values, node, pair),
    }
}

/// The number of a selector.
fn chosen(fold: &Fold<'_>, values: &[i64], id: u32, pair: u32) -> i64
    requires there { id < size fold.now }
    requires pair { HasPairAt pair (node fold.now id) }
    requires count { length values.now ≡ size fold.now }
    ensures { result ≡ chosen_by (number_at values.now) id pair (node fold.now id) }
{
    match fold.prov().node(id) {
        Part::Min(pairs) => i64::from(is_first(values, values[id as usize], pairs, pair as usize)),
        _ => 0,
    }
}

/// Whether the pair of this number is there with the least number, and none before it.
fn is_first(values: &[i64], least: i64, pairs: &[Pair], pair: usize) -> bool
    requires pair { pair < length pairs.now }
    requires pairs { All (λ (p : ThePair). (p.truth < length values.now) × (p.number < length values.now)) pairs.now }
    ensures { result ≡ is_first (has_least (number_at values.now) least) pairs.now pair }
{
    has_least(values, least, pairs[pair]) && !one_has_least(values, least, &pairs[..pair])
}

/// Whether one of the pairs is there with the least number.
fn one_has_least(values: &[i64], least: i64, pairs: &[Pair]) -> bool
    requires { All (λ (p : ThePair). (p.truth < length values.now) × (p.number < length values.now)) pairs.now }
    ensures { result ≡ list_any (has_least (number_at values.now) least) pairs.now }
{
    for pair in pairs {
        if has_least(values, least, *pair) {
            return true;
        }
    }
    false
}

/// Whether the pair is there with the least number.
fn has_least(values: &[i64], least: i64, pair: Pair) -> bool
    requires truth { pair.truth < length values.now }
    requires number { pair.number < length values.now }
    ensures { result ≡ has_least (number_at values.now) least pair }
{
    values[pair.truth as usize] == 1 && values[pair.number as usize] == least
}

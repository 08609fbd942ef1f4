//! What the columns of a program stand for, and which column stands for what.
ghost use Rattle.std.specs.Prelude.{◌≡◌, ◌<◌, ◌≤◌, ◌^◌, ◌↔◌, length, IsTrue};
ghost use Rattle.bool_encode.specs.Stands.{IsMap, column_of};

use base_kit::{Duplicate, List, Memory};
use std::alloc::Global;

/// What a column stands for. World columns, nodes and the pairs of a Min are counted from 0 (docs/ENCODING.md).
#[derive(Clone, Copy, Debug, PartialEq, Eq)]
pub enum Stand {
    /// A choice of the query.
    World(u32),
    /// The truth or the number at this place of the list of formulas.
    Node(u32),
    /// Whether the Min at this place takes its number from this pair.
    Selector { node: u32, pair: u32 },
}

/// What each column of a program stands for, in the order of the columns. No two stand for the same
/// (docs/ENCODING.md).
#[derive(Debug, Drop)]
pub struct ColumnMap {
    pub stands: List<Stand>,
}

/// The first column that stands for this, or the number of columns where none does.
pub(crate) fn column(stands: &[Stand], sought: Stand) -> u32
    requires { IsMap stands.now }
    ensures { result ≡ column_of stands.now sought }
{
    let place = guess(stands, sought);
    if place < stands.len() && is_it(&stands[place], sought) {
        return place as u32;
    }
    first(stands, sought)
}

/// Where the column is, if the columns rise by rank, as those of a program do.
fn guess(stands: &[Stand], sought: Stand) -> usize {
    match stands.binary_search_by_key(&rank(&sought), |stand| rank(stand)) {
        Ok(place) => place,
        Err(place) => place,
    }
}

/// By what columns rise: world columns first, then nodes, each with its selectors behind it.
fn rank(stand: &Stand) -> (bool, u32, u64) {
    match *stand {
        Stand::World(column) => (false, column, 0),
        Stand::Node(node) => (true, node, 0),
        Stand::Selector { node, pair } => (true, node, u64::from(pair) + 1),
    }
}

/// The same by looking at each.
fn first(stands: &[Stand], sought: Stand) -> u32
    requires { length stands.now < 2 ^ 32 }
    ensures { result ≡ column_of stands.now sought }
{
    for (place, stand) in stands.iter().enumerate() {
        if is_it(stand, sought) {
            return place as u32;
        }
    }
    stands.len() as u32
}

fn is_it(stand: &Stand, sought: Stand) -> bool
    ensures { IsTrue result ↔ (stand.now ≡ sought) }
{
    *stand == sought
}

impl Duplicate for Stand {
    fn copy(&self, _alloc: Global) -> Result<Stand, Memory> {
        Ok(*self)
    }
}

impl Duplicate for ColumnMap {
    fn copy(&self, alloc: Global) -> Result<ColumnMap, Memory> {
        Ok(ColumnMap {
            stands: List::from_slice(alloc, self.stands.as_slice())?,
        })
    }
}

//! Columns of the whole numbers that tell worlds apart.

use base_kit::{Duplicate, Memory};
use std::alloc::Global;

/// A number that is chosen: whether a row is there, or what stands in a set column of it.
#[derive(Clone, Copy, Debug, PartialEq, Eq)]
pub struct WorldColumn {
    /// The number of the hypothetical table, from 0.
    pub hypo: u32,
    /// The row of its table.
    pub row: u32,
    /// The column, or `None` for the row's presence, which is 0 or 1.
    pub cell: Option<u32>,
    /// Whether the row may be left out.
    pub droppable: bool,
    /// The least number: 0 for a presence, else the row's lower bound.
    pub lo: i64,
    /// The greatest number: 1 for a presence, else the row's upper bound.
    pub hi: i64,
}

impl Duplicate for WorldColumn {
    fn copy(&self, _alloc: Global) -> Result<WorldColumn, Memory> {
        Ok(*self)
    }
}

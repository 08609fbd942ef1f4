//! Multipliers of rows, by which a bound is shown.

use base_kit::{Duplicate, Memory};
use rat128::Rat;
use std::alloc::Global;

/// How often a row counts in a bound. Rows are counted from 0 (docs/BOUNDS.md).
#[derive(Clone, Copy, Debug, PartialEq, Eq)]
pub struct Mult {
    pub row: u32,
    pub factor: Rat,
}

impl Duplicate for Mult {
    fn copy(&self, _alloc: Global) -> Result<Mult, Memory> {
        Ok(*self)
    }
}

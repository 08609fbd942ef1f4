//! Terms of a whole-number program, and its rows.

use base_kit::{Duplicate, List, Memory};
use std::alloc::Global;

/// A factor times the number of a column. Columns are counted from 0 (docs/BOUNDS.md).
#[derive(Clone, Copy, Debug, PartialEq, Eq)]
pub struct Coef {
    pub factor: i64,
    pub column: u32,
}

/// A row: the sum of its terms is at least `least`. The terms rise by column, name columns that are there, and have no
/// factor 0 (docs/BOUNDS.md).
#[derive(Debug, Drop)]
pub struct IpRow {
    pub terms: List<Coef>,
    pub least: i64,
}

impl Duplicate for Coef {
    fn copy(&self, _alloc: Global) -> Result<Coef, Memory> {
        Ok(*self)
    }
}

impl Duplicate for IpRow {
    fn copy(&self, alloc: Global) -> Result<IpRow, Memory> {
        Ok(IpRow {
            terms: List::from_slice(alloc, self.terms.as_slice())?,
            least: self.least,
        })
    }
}

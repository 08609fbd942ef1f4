//! A part of a program as it is relaxed.

use crate::{Bounds, Coef, IpRow};
use base_kit::{Duplicate, List, Memory};
use std::alloc::Global;

/// Columns with their sides, rows, and the aim, of which the least value is wanted. The columns are places in `sides`,
/// counted from 0 (docs/BOUNDS.md).
#[derive(Debug, Drop)]
pub struct Lp {
    pub sides: List<Bounds>,
    pub rows: List<IpRow>,
    pub aim: List<Coef>,
}

impl Duplicate for Bounds {
    fn copy(&self, _alloc: Global) -> Result<Bounds, Memory> {
        Ok(*self)
    }
}

impl Duplicate for Lp {
    fn copy(&self, alloc: Global) -> Result<Lp, Memory> {
        Ok(Lp {
            sides: List::from_slice(alloc, self.sides.as_slice())?,
            rows: self.rows.copy(alloc)?,
            aim: List::from_slice(alloc, self.aim.as_slice())?,
        })
    }
}

//! A part of a grid.

use base_kit::{Duplicate, List, Memory};
use std::alloc::Global;

/// Columns that are linked with one another and with no others, and the live rows that have them. Rows and columns are
/// numbered as in the grid, and both lists rise (docs/REDUCTION.md).
#[derive(Debug, Drop)]
pub struct PartCols {
    pub columns: List<u32>,
    pub rows: List<u32>,
}

impl Duplicate for PartCols {
    fn copy(&self, alloc: Global) -> Result<PartCols, Memory> {
        Ok(PartCols {
            columns: self.columns.copy(alloc)?,
            rows: self.rows.copy(alloc)?,
        })
    }
}

//! The two files of a drill.

use base_kit::{Duplicate, List, Memory};
use std::alloc::Global;

/// A query and the bytes of the one table that it reads (docs/REDUCTION.md).
#[derive(Debug, Drop)]
pub struct Drill {
    /// The bytes of the query.
    pub query: List<u8>,
    /// The bytes of the table `item`.
    pub table: List<u8>,
}

impl Duplicate for Drill {
    fn copy(&self, alloc: Global) -> Result<Drill, Memory> {
        Ok(Drill {
            query: self.query.copy(alloc)?,
            table: self.table.copy(alloc)?,
        })
    }
}

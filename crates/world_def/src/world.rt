//! Worlds: a table for each hypothetical table of a query.

use base_kit::{Duplicate, List, Memory, Row};
use std::alloc::Global;

/// The rows of a hypothetical table in a world.
#[derive(Debug, Drop)]
pub struct WorldTable {
    /// The numbers of the rows of its table that are there, rising, from 0.
    pub picks: List<u32>,
    /// These rows, one for each number.
    pub rows: List<Row>,
}

/// A world: what the hypothetical tables hold, in the order of the query.
#[derive(Debug, Drop)]
pub struct World {
    /// The tables.
    pub tables: List<WorldTable>,
}

impl Duplicate for WorldTable {
    fn copy(&self, alloc: Global) -> Result<WorldTable, Memory> {
        Ok(WorldTable {
            picks: self.picks.copy(alloc)?,
            rows: self.rows.copy(alloc)?,
        })
    }
}

impl Duplicate for World {
    fn copy(&self, alloc: Global) -> Result<World, Memory> {
        Ok(World {
            tables: self.tables.copy(alloc)?,
        })
    }
}

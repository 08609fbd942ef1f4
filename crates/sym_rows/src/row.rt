//! Possible rows, and those of the relations that have been made.

use base_kit::{Duplicate, List, Memory, Value};
use std::alloc::Global;

/// What stands in a column of a possible row (docs/FORMULAS.md, "The walk").
#[derive(Debug, Drop)]
pub enum Cell {
    /// The value, in a column that is the same in every world.
    Fixed(Value),
    /// The place of a number in the list of formulas, from 0, in a column that may differ.
    Number(u32),
}

/// A row that may be there (docs/FORMULAS.md, "The walk").
#[derive(Debug, Drop)]
pub struct SymRow {
    /// The place of the truth that it is there in the list of formulas, from 0. It is not False.
    pub presence: u32,
    /// Its cells, one for each column.
    pub cells: List<Cell>,
}

/// The possible rows of the relations that have been made so far, each list in declared order.
#[derive(Debug, Drop)]
pub struct Known {
    /// Those of the tables.
    pub tables: List<List<SymRow>>,
    /// Those of the hypothetical tables.
    pub hypos: List<List<SymRow>>,
    /// Those of the views.
    pub views: List<List<SymRow>>,
}

impl Duplicate for Cell {
    fn copy(&self, alloc: Global) -> Result<Cell, Memory> {
        match self {
            Cell::Fixed(value) => Ok(Cell::Fixed(value.copy(alloc)?)),
            Cell::Number(id) => Ok(Cell::Number(*id)),
        }
    }
}

impl Duplicate for SymRow {
    fn copy(&self, alloc: Global) -> Result<SymRow, Memory> {
        Ok(SymRow {
            presence: self.presence,
            cells: self.cells.copy(alloc)?,
        })
    }
}

impl Duplicate for Known {
    fn copy(&self, alloc: Global) -> Result<Known, Memory> {
        Ok(Known {
            tables: self.tables.copy(alloc)?,
            hypos: self.hypos.copy(alloc)?,
            views: self.views.copy(alloc)?,
        })
    }
}

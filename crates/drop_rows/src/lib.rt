//! The rows that tie a cell to the presence of its row.
#![tactic(auto)]

mod cells;

pub use cells::cell_rows;

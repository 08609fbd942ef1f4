//! The rows of comparisons, guards, sizes and totals, and what fits a program (docs/ENCODING.md).
#![tactic(auto)]

mod forms;
mod kinds;
mod rows;

pub use rows::number_rows;

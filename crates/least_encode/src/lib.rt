//! The rows of a Min (docs/ENCODING.md, "From formulas to rows").
#![tactic(auto)]

mod forms;
mod groups;
mod narrow;
mod rows;

pub use rows::least_rows;

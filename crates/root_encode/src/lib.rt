//! The rows that ask that a truth holds (docs/ENCODING.md, "Roots").
#![tactic(auto)]

mod ask;
mod rows;

pub use rows::root_rows;

//! Dictionaries of exact fractions, and the pivot (docs/SOLVER.md).
#![tactic(auto)]

mod begin;
mod cells;
mod dict;
mod pivot;
mod shares;

pub use begin::start;
pub use dict::Dict;
pub use pivot::WideCell;

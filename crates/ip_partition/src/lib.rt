//! The parts of a grid: classes of columns that rows link (docs/REDUCTION.md).
#![tactic(auto)]

mod labels;
mod part;
mod sizes;
mod split;
mod spread;

pub use part::PartCols;
pub use split::parts;

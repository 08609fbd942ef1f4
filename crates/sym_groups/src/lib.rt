//! DISTINCT and the groups of a select, over the possible rows that its combinations left (docs/FORMULAS.md, "The walk").
#![tactic(auto)]

mod aggregates;
mod distinct;
mod group;
mod items;
mod keys;
mod making;
mod rows;

pub use distinct::distinct_rows;
pub use group::group_rows;

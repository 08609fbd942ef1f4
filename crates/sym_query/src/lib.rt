//! The walk of a whole query over its possible rows (docs/FORMULAS.md, "The walk").
#![tactic(auto)]

mod fault;
mod goals;
mod known;
mod relation;

pub use fault::QueryFault;
pub use goals::{Goals, walk_query};

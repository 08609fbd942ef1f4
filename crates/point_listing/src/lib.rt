//! Lists the worlds of a whole-number program: the points of the box of its world columns, within a budget of nodes
//! (docs/ANSWERS.md).
#![tactic(auto)]

mod halves;
mod listing;
mod search;
mod solved;

pub use listing::list_points;
pub use solved::{SolveFault, Solved};

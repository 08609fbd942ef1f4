//! Points: the numbers of a query's world columns, as points of a box, and the cost of each.
#![tactic(auto)]

mod judge;
mod sides;

pub use judge::{cost, judge_point, judge_world};
pub use sides::sides_of;

//! What fits a whole-number program, and that its whole points are those of worlds (docs/ENCODING.md).
#![tactic(auto)]

mod worlds;

pub use worlds::{same_choices, world_point};

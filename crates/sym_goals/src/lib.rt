//! The truths that requirements ask to hold, and the number of the objective, over the possible rows of a relation
//! (docs/FORMULAS.md, "The walk").
#![tactic(auto)]

mod aim;
mod guarding;
mod roots;

pub use aim::aim_of;
pub use roots::roots_of;

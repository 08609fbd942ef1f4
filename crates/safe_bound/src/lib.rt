//! A lower bound on the objective of a program over a box, by multipliers of its rows.
#![tactic(auto)]

mod factor;
mod steps;
mod sums;

pub use sums::bound;

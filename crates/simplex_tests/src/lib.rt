//! Tests of the solver: parts whose answers were worked out by another program.
#![tactic(auto)]

mod asked;
#[cfg(test)]
mod many;
#[cfg(test)]
mod worked;

pub use asked::{Asked, Factors};

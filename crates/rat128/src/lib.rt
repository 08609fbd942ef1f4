//! Exact fractions whose two numbers have at most 127 bits. Their rules are in docs/FRACTIONS.md.
#![tactic(auto)]

mod divisor;
mod memory;
mod number;
mod rat;
mod text;
mod wide;

pub use memory::RatMemory;
pub use rat::{Rat, order_quotients};
pub use text::read_rat;

//! The values of expressions and the truths of conditions on rows.
#![tactic(auto)]

mod condition;
mod expression;
mod fault;

pub use condition::truth;
pub use expression::{cell, number, text, within};
pub use fault::Wide;

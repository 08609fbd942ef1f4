//! Formulas that are made by fold rules, with the range of each and its value on a world (docs/FORMULAS.md).
#![tactic(auto)]

mod atoms;
mod fault;
mod fold;
mod lists;
mod span;
mod sums;
mod values;

pub use fault::FoldFault;
pub use fold::Fold;
pub use prov_arena::{Pair, Part, Prov, Term};
pub use span::{Scaled, Span};

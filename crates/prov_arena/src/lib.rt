//! The list of the parts of which formulas are made, each held once (docs/FORMULAS.md).
#![tactic(auto)]

mod chains;
mod hash;
mod memory;
mod part;
mod prov;
mod words;

pub use memory::ArenaMemory;
pub use part::{Pair, Part, Term};
pub use prov::Prov;

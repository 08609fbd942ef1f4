//! The exact dual simplex (docs/SOLVER.md).
#![tactic(auto)]

mod answer;
mod closing;
mod entering;
mod next;
mod violated;
mod walk;

pub use answer::{Relaxed, WideProof, relax};
pub use next::PivotAt;

//! The parts of a whole-number program: sides of columns, rows of terms, and the multipliers of a bound.
#![tactic(auto)]

mod lp;
mod mult;
mod program;
mod rows;

pub use lp::Lp;
pub use mult::Mult;
pub use program::{ColumnKind, IpColumn, Program};
pub use rows::{Coef, IpRow};

/// The least and the greatest number that a column may have, both ends included.
///
/// Where `hi` is below `lo` there is no such number (docs/MEANING.md).
#[derive(Clone, Copy, Debug, PartialEq, Eq)]
pub struct Bounds {
    pub lo: i64,
    pub hi: i64,
}

//! Less of a program: fixed columns put in, and the rows left out that say nothing or say it again (docs/REDUCTION.md).
#![tactic(auto)]

mod chains;
mod entries;
mod hash;
mod outcome;
mod put_in;
mod sieve;
mod work;

pub use outcome::Reduced;
pub use work::reduce;

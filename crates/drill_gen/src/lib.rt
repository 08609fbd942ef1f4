//! The drill: a query and a table for as many suppliers as are wanted, made from their number alone (docs/REDUCTION.md).
#![tactic(auto)]

mod bytes;
mod files;

pub use bytes::{MOST_SUPPLIERS, drill};
pub use files::Drill;

#[cfg(test)]
mod tests;

//! Entries of rows and columns in circular lists, four ways: what reduction takes rows out of, and
//! what is walked to find the parts (docs/ENCODING.md).
#![tactic(auto)]

mod entry;
mod grid;
mod line;
mod links;
mod starts;
mod walk;

pub use entry::Entry;
pub use grid::Grid;
pub use walk::GridWalk;

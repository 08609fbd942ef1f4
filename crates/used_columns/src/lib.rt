//! Which nodes of a list of formulas are used, and the columns of a program for them (docs/ENCODING.md).
#![tactic(auto)]

mod beside;
mod fault;
mod layout;
mod rows;
mod walk;

pub use beside::aid;
pub use fault::ColumnsFault;
pub use layout::{Layout, columns_for};
pub use rows::seeds;
pub use walk::used;

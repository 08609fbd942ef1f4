//! The program of a query over its tables: what its whole points are worth, and how it is made (docs/ENCODING.md).
#![tactic(auto)]

mod built;
mod fault;
mod text;

pub use built::{Built, build};
pub use fault::BuildFault;
pub use text::program_text;

//! The program of a list of formulas: its columns, its rows and its aim (docs/ENCODING.md).
#![tactic(auto)]

mod fault;
mod goal;
mod linear;
mod nodes;
mod program;
mod rows;
mod sow;

pub use fault::ProgramFault;
pub use goal::Goal;
pub use program::{Encoded, program_of};

//! The text of a program, for those who audit it (docs/ENCODING.md, "The text of a program").
#![tactic(auto)]

mod columns;
mod nodes;
mod put;
mod rows;
mod text;

pub use text::write_program;

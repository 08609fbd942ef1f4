//! The text of an answer: what a solver writes, and what a checker reads.
//!
//! An answer has one text, and a text is that of one answer at most (docs/ANSWERS.md).
#![tactic(auto)]

mod answer;
mod blocks;
mod lines;
mod read;
mod tokens;
mod world;
mod write;

pub use answer::{Answer, PartAnswer, Verdict, WorldText};
pub use read::{AnswerFault, read_answer};
pub use world::{WorldFault, world_of};
pub use write::write_answer;

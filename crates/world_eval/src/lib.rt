//! The evaluation of an answer: the rows of the views in its world, whether it meets what is required, and its score.
//!
//! docs/ANSWERS.md, "Evaluating", has the text that is told.
#![tactic(auto)]

mod evaluation;
mod lines;
mod standing;
mod tables;

pub use evaluation::{Evaluation, evaluate};

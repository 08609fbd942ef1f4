//! Runs a command: its words, the files and the output in, the status out.
#![tactic(auto)]

mod engine;
mod excess;
mod line;
mod refusal;
mod reply;
mod write;

pub use engine::run;

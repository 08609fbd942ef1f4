//! Answers queries by listing their worlds: the points of the box of their world columns, within a budget of nodes.
#![tactic(auto)]

mod answer;
mod halves;
mod search;
mod sections;

pub use answer::answer_listed;

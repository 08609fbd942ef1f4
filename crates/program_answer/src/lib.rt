//! The answer to a query over its tables, by the listing of its program's worlds (docs/ANSWERS.md).
#![tactic(auto)]

mod answer;
mod sections;

pub use answer::answer_built;

//! Reads what a command names: its query, tables and answer, up to the job that is then done.
#![tactic(auto)]

mod ask;
mod bound;
mod fetch;
mod job;
mod limit;
mod load;
mod refusal;
mod task;
mod words;

pub use job::{Job, Task, take_job};
pub use refusal::{FileFault, Refusal, Stop};

//! The check of an answer: whether what it says can be relied on, whoever wrote it.
#![tactic(auto)]

mod audit;
mod check;
mod fault;
mod part;
mod subject;
mod walk;

pub use check::check_listed;
pub use fault::{CheckFault, Reject};

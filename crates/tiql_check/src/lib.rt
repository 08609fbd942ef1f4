//! The soundness of a query: its tree is checked against the rules of the language, and its names become numbers.
#![tactic(auto)]

mod condition;
mod expression;
mod fault;
mod hypo;
mod item;
mod known;
mod number;
mod query;
mod scope;
mod select;
mod table;
mod view;

pub use fault::SoundFault;
pub use query::check;

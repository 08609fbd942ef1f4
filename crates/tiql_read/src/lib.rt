//! Reads the text of a query into its tree.
#![tactic(auto)]

mod column;
mod condition;
mod declaration;
mod expression;
mod item;
mod leaf;
mod list;
mod reader;
mod select;
mod whole;
mod word;

pub use reader::{ReadFault, read_query};

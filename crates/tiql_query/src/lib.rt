//! A checked query: the tree of a text with its names replaced by numbers, and each column known as fixed or not.
#![tactic(auto)]

mod aim;
mod condition;
mod expression;
mod optional;
mod query;
mod relation;
mod view;
mod world_column;

pub use aim::{Aim, Require};
pub use condition::{Cmp, Cond};
pub use expression::{At, Expr, Signed};
pub use query::Query;
pub use relation::{Column, QBound, QHypo, QTable, Source};
pub use view::{Item, QView, Select};
pub use world_column::WorldColumn;

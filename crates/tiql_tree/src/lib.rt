//! The tree of a query's text, with its names as they are written, and the grammar that spells it.
#![tactic(auto)]

mod condition;
mod expression;
mod print;
mod tree;
mod words;
mod write_condition;
mod write_expression;
mod write_select;

pub use condition::{TreeCmp, TreeCond};
pub use expression::{TreeExpr, TreeForm, TreeRef, TreeSigned};
pub use print::print_tree;
pub use tree::{
    Decl, Spot, Tree, TreeBound, TreeColumn, TreeGoal, TreeHypo, TreeItem, TreeRequire, TreeSelect,
    TreeSource, TreeTable, TreeValue, TreeView,
};

//! The tree of splits by which a search has parted a box, and the box of each of its nodes.
//!
//! A tree is kept as the list of its nodes in preorder: a split, then the whole tree of its lower
//! side, then the whole tree of its upper side (docs/ANSWERS.md).
#![tactic(auto)]

mod branches;
mod node;
mod side;
mod way;

pub use branches::Branches;
pub use node::{Leaf, Node, Reason};
pub use side::{high_side, low_side, lowest_point};

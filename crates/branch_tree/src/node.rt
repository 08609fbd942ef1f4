//! What stands at a node of a tree of splits.

use base_kit::{Duplicate, Memory};
use std::alloc::Global;

/// Why a split has its column and its place.
///
/// A reason is written with the split, and no check depends on it (docs/ANSWERS.md).
#[derive(Clone, Copy, Debug, PartialEq, Eq)]
pub enum Reason {
    /// The first column with two numbers in the box, parted in the middle.
    Plain,
}

/// How the work at a box ended.
#[derive(Debug, Drop)]
pub enum Leaf {
    /// The box has one number at every column.
    Fixed,
    /// The box has not been worked.
    Pending,
}

/// A node of a tree of splits.
#[derive(Debug, Drop)]
pub enum Node {
    /// The box is parted: the number of `column` is at most `at` in the one part, and at least
    /// `at + 1` in the other. The columns are counted from 0.
    Split {
        column: u32,
        at: i64,
        reason: Reason,
    },
    /// The box is not parted further.
    Closed(Leaf),
}

impl Duplicate for Leaf {
    fn copy(&self, _alloc: Global) -> Result<Leaf, Memory> {
        match self {
            Leaf::Fixed => Ok(Leaf::Fixed),
            Leaf::Pending => Ok(Leaf::Pending),
        }
    }
}

impl Duplicate for Node {
    fn copy(&self, alloc: Global) -> Result<Node, Memory> {
        match self {
            Node::Split { column, at, reason } => Ok(Node::Split {
                column: *column,
                at: *at,
                reason: *reason,
            }),
            Node::Closed(leaf) => Ok(Node::Closed(leaf.copy(alloc)?)),
        }
    }
}

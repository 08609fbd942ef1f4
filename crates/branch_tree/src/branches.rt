//! One whole tree of splits, as the list of its nodes.

ghost use Rattle.std.specs.Prelude.{◌≡◌, ◌↔◌, ◌<◌, ◌^◌, length, IsTrue, IsSome, IfSome, IfOk};
ghost use Rattle.branch_tree.specs.Boxes.{HasBox, box_of};
ghost use Rattle.branch_tree.specs.Tree.{Tree, preorder, is_whole, IsTree, worked_nodes, pending_nodes};
ghost use Rattle.branch_tree.specs.Tree as spec;

use crate::node::{Leaf, Node};
use crate::way::{narrow, turns_above};
use base_kit::{Duplicate, List, Memory};
use ip_rows::Bounds;
use std::alloc::Global;
use std::marker::Model;

/// One whole tree of splits. A contract sees it as the list of its nodes in preorder.
#[derive(Debug, Drop)]
pub struct Branches {
    nodes: List<Node>,
}

impl Model for Branches {
    ghost use Rattle.std.specs.Prelude.{List};
    ghost use Rattle.branch_tree.specs.declared.node.Node.{Node};

    ghost Value = { List Node };

    ghost use Rattle.branch_tree.specs.Tree.{WholeTree};

    ghost view = { λ it. it.nodes };

    ghost invariant = { λ it. WholeTree it.nodes };
}

impl Branches {
    /// Keeps these nodes, if they are one whole tree in preorder.
    ///
    /// `None` comes exactly where the list is not one whole tree (docs/ANSWERS.md). A list has fewer
    /// than 2^32 nodes.
    pub fn from_nodes(nodes: List<Node>) -> Option<Branches>
        requires { length nodes < 2 ^ 32 }
        ensures tree { IsSome result ↔ IsTree nodes }
        ensures nodes { IfSome result (λ made. made ≡ nodes) }
    {
        if are_one_tree(nodes.as_slice()) {
            Some(Branches { nodes })
        } else {
            None
        }
    }

    /// The nodes in preorder, at least one and fewer than 2^32.
    pub fn nodes(&self) -> &List<Node>
        ensures nodes { result.now ≡ self.now }
        ensures tree { IsTree self.now }
        ensures small { length self.now < 2 ^ 32 }
    {
        &self.nodes
    }

    /// How many nodes have been worked: the splits, and the leaves that are not pending.
    pub fn worked(&self) -> u32
        ensures { result ≡ worked_nodes self.now }
    {
        self.nodes
            .as_slice()
            .iter()
            .filter(|node| is_worked(node))
            .count() as u32
    }

    /// How many boxes have not been worked.
    pub fn pending(&self) -> u32
        ensures { result ≡ pending_nodes self.now }
    {
        self.nodes
            .as_slice()
            .iter()
            .filter(|node| !is_worked(node))
            .count() as u32
    }

    /// The box of a node: the root's sides, narrowed by every split above it.
    ///
    /// Nodes are counted from 0 in preorder. The node is there, and each split above it parts its own box; `root` has
    /// one entry for each column (docs/ANSWERS.md).
    pub fn sides(
        &self,
        alloc: Global,
        root: &List<Bounds>,
        node: u32,
    ) -> Result<List<Bounds>, Memory>
        requires { (tree : Tree) → preorder tree ≡ self.now → HasBox root.now tree node }
        ensures { IfOk result (λ sides. (tree : Tree) → preorder tree ≡ self.now → sides ≡ box_of root.now tree node) }
    {
        let turns = turns_above(alloc, &self.nodes.as_slice()[..node as usize])?;
        let mut sides = List::from_slice(alloc, root.as_slice())?;
        narrow(&mut sides, turns);
        Ok(sides)
    }
}

impl Duplicate for Branches {
    fn copy(&self, alloc: Global) -> Result<Branches, Memory> {
        Ok(Branches {
            nodes: self.nodes.copy(alloc)?,
        })
    }
}

/// Tells whether the node is a split or a leaf that has been worked.
fn is_worked(node: &Node) -> bool
    ensures { result ≡ spec.is_worked node.now }
{
    !matches!(node, Node::Closed(Leaf::Pending))
}

/// Tells whether the nodes are one whole tree, by counting the trees that are still wanted.
fn are_one_tree(nodes: &[Node]) -> bool
    requires { length nodes.now < 2 ^ 32 }
    ensures { result ≡ is_whole nodes.now }
{
    let mut wanted: u64 = 1;
    for node in nodes {
        if wanted == 0 {
            return false;
        }
        match node {
            Node::Split { .. } => wanted += 1,
            Node::Closed(_) => wanted -= 1,
        }
    }
    wanted == 0
}

//! A part of an answer, gone through node by node.

ghost use Rattle.std.specs.Prelude.{◌≡◌, length};
ghost use Rattle.branch_tree.specs.Tree.{Tree, preorder};
ghost use Rattle.world_points.specs.Subject.{IsSubject};
ghost use Rattle.cert_check.specs.Checks as told;
ghost use Rattle.cert_check.specs.Reasons as spec;
ghost use Rattle.cert_check.specs.Walks as walk;

use crate::fault::{CheckFault, Reject};
use crate::part::have_two;
use crate::subject::Subject;
use crate::walk::Walk;
use base_kit::List;
use branch_tree::{Branches, Leaf, Node};
use ip_rows::Bounds;
use std::alloc::Global;

/// A part with the best value against which its leaves close.
#[derive(Clone, Copy, Debug)]
pub struct Audit<'a> {
    pub subject: Subject<'a>,
    pub best: Option<i128>,
    /// The part's number.
    pub part: u32,
}

impl Audit<'_> {
    /// Checks a tree over a box.
    pub fn check_tree(
        &self,
        alloc: Global,
        root: List<Bounds>,
        tree: &Branches,
    ) -> Result<(), CheckFault>
        requires subject { IsSubject self.now.subject.query.now self.now.subject.tables.now self.now.subject.columns.now }
        requires long { length root ≡ length self.now.subject.columns.now }
        ensures { (whole : Tree) → tree.now ≡ preorder whole → told.TellsOutcome (spec.in_tree self.now.subject.query.now self.now.subject.tables.now self.now.subject.columns.now self.now.best whole root self.now.part 1) result }
    {
        let mut walk = Walk::new(alloc, root);
        for (at, node) in tree.nodes().as_slice().iter().enumerate() {
            let Some(sides) = walk.here() else {
                return Ok(());
            };
            self.check_node(alloc, node, sides, at as u32 + 1)?;
            walk.pass(node)?;
        }
        Ok(())
    }

    /// Checks the node with this number, counted from 1, and its box.
    fn check_node(
        &self,
        alloc: Global,
        node: &Node,
        sides: &[Bounds],
        place: u32,
    ) -> Result<(), CheckFault>
        requires subject { IsSubject self.now.subject.query.now self.now.subject.tables.now self.now.subject.columns.now }
        requires long { length sides.now ≡ length self.now.subject.columns.now }
        ensures { told.TellsOutcome (walk.at_node self.now.subject.query.now self.now.subject.tables.now self.now.subject.columns.now self.now.best self.now.part node.now sides.now place) result }
    {
        match node {
            Node::Split { column, at, .. } => {
                self.need(is_parted(sides, *column, *at), Reject::WrongSplit, place)
            }
            Node::Closed(Leaf::Pending) => self.need(false, Reject::OpenNode, place),
            Node::Closed(Leaf::Fixed) => self.check_fixed(alloc, sides, place),
        }
    }

    /// Checks a leaf whose box is said to have one world.
    fn check_fixed(&self, alloc: Global, sides: &[Bounds], place: u32) -> Result<(), CheckFault>
        requires subject { IsSubject self.now.subject.query.now self.now.subject.tables.now self.now.subject.columns.now }
        requires long { length sides.now ≡ length self.now.subject.columns.now }
        ensures { told.TellsOutcome (spec.at_leaf self.now.subject.query.now self.now.subject.tables.now self.now.subject.columns.now self.now.best Leaf.Fixed sides.now self.now.part place) result }
    {
        self.need(!have_two(sides), Reject::NotFixed, place)?;
        let value = self.subject.judge(alloc, sides)?;
        self.need(!beats(self.best, value), Reject::FixedBeats, place)
    }

    /// The reason comes at a node unless the test holds.
    fn need(&self, holds: bool, reason: Reject, node: u32) -> Result<(), CheckFault>
        ensures { result ≡ spec.unless holds reason self.now.part node }
    {
        if holds {
            Ok(())
        } else {
            Err(CheckFault::Rejected {
                reason,
                part: self.part,
                node,
            })
        }
    }
}

/// Whether a split at a number of a column leaves something of its side on either part.
fn is_parted(sides: &[Bounds], column: u32, at: i64) -> bool
    ensures { result ≡ spec.is_parted sides.now column at }
{
    match sides.get(column as usize) {
        Some(side) => side.lo <= at && at < side.hi,
        None => false,
    }
}

/// Whether a value is better than the best one, or there is no best one.
fn beats(best: Option<i128>, value: Option<i128>) -> bool
    ensures { result ≡ spec.beats best value }
{
    match (best, value) {
        (_, None) => false,
        (None, Some(_)) => true,
        (Some(best), Some(value)) => value < best,
    }
}

//! The way from a node of a tree up to its root, and the box that it leads to.

ghost use Rattle.std.specs.Prelude.{◌≡◌, ◌+◌, ◌^◌, ◌<◌, ◌≤◌, IfOk, OnOk, length, slice_get, slice_set, [], if◌then◌else◌, pos, ◌≤ℤ◌, ◌<ℤ◌, IsTrue};
ghost use Rattle.branch_tree.specs.Boxes.{IsParted};
ghost use Rattle.branch_tree.specs.Boxes as boxes;
ghost use Rattle.branch_tree.specs.Ways as spec;

use crate::node::Node;
use crate::side::{high_side, low_side};
use base_kit::{List, Memory};
use ip_rows::Bounds;
use std::alloc::Global;

/// A split above a node, and on which of its sides the node lies.
#[derive(Clone, Copy, Debug)]
pub struct Turn {
    column: u32,
    at: i64,
    is_low: bool,
}

/// What a walk from a node back to the root has found so far.
#[derive(Debug, Drop)]
struct Walk {
    /// The whole trees that have been passed and belong to no split that has been passed.
    passed: u64,
    /// The splits above the node, the nearest first.
    turns: List<Turn>,
}

/// The splits above the node that stands behind these nodes in preorder, the nearest first.
pub fn turns_above(alloc: Global, before: &[Node]) -> Result<List<Turn>, Memory>
    requires { length before.now < 2 ^ 32 }
    ensures { IfOk result (λ turns. turns ≡ (spec.walk_back before.now).turns) }
{
    let mut walk = Walk {
        passed: 0,
        turns: List::new(alloc),
    };
    let mut left = before.len();
    while left > 0 {
        left -= 1;
        step_back(&mut walk, &before[left])?;
    }
    let Walk { passed: _, turns } = walk;
    Ok(turns)
}

/// Goes back over one node: a closed box is a whole tree; a split behind which two whole trees stand makes them one;
/// any other split is above the node where the walk began.
fn step_back(walk: &mut Walk, node: &Node) -> Result<(), Memory>
    requires { walk.old.passed < 2 ^ 32 }
    ensures step { OnOk result (walk.new ≡ spec.step_back node.now walk.old) }
    ensures bound { walk.new.passed ≤ walk.old.passed + 1 }
{
    match node {
        Node::Closed(_) => walk.passed += 1,
        Node::Split { column, at, .. } => turn_at(walk, *column, *at)?,
    }
    Ok(())
}

/// Goes back over a split.
fn turn_at(walk: &mut Walk, column: u32, at: i64) -> Result<(), Memory>
    ensures step { OnOk result (walk.new ≡ spec.turn_at column at walk.old) }
    ensures bound { walk.new.passed ≤ walk.old.passed }
{
    if walk.passed > 1 {
        walk.passed -= 1;
        return Ok(());
    }
    let is_low = walk.passed == 0;
    walk.passed = 0;
    Ok(walk.turns.push(Turn { column, at, is_low })?)
}

/// Narrows a box by the splits on a way, the last of which comes first.
pub fn narrow(sides: &mut List<Bounds>, mut turns: List<Turn>)
    requires { spec.IsWay sides.old turns }
    ensures { sides.new ≡ spec.box_along sides.old turns }
{
    while let Some(turn) = turns.pop() {
        turn_to(sides, turn);
    }
}

/// Narrows a box to the side of a split on which the way goes.
fn turn_to(sides: &mut List<Bounds>, turn: Turn)
    requires { IsParted sides.old turn.column turn.at }
    ensures { sides.new ≡ spec.turned sides.old turn }
{
    let column = turn.column as usize;
    let side = sides.as_slice()[column];
    sides.set(column, side_of(side, turn.at, turn.is_low));
}

/// The numbers of a side up to `at`, or those above it.
fn side_of(side: Bounds, at: i64, is_low: bool) -> Bounds
    requires { at <ℤ side.hi }
    ensures { result ≡ (if is_low then boxes.low_side side at else boxes.high_side side at) }
{
    if is_low {
        low_side(side, at)
    } else {
        high_side(side, at)
    }
}

//! A walk over the nodes of a tree in preorder, with the box of each.

ghost use Rattle.std.specs.Prelude.{◌≡◌, ◌∷◌, [], OnOk, MatchOption};
ghost use Rattle.branch_tree.specs.declared.node.Node.TheVariants.{Split};
ghost use Rattle.branch_tree.specs.declared.node.Reason.TheVariants.{Plain};
ghost use Rattle.cert_check.specs.Walks as spec;

use base_kit::{List, Memory};
use branch_tree::{Node, high_side, low_side};
use ip_rows::Bounds;
use std::alloc::Global;

/// A split above the box where a walk stands.
#[derive(Clone, Copy, Debug)]
pub struct Turn {
    column: u32,
    /// The column's side in the box that is split.
    side: Bounds,
    /// Its side in the upper part, as long as the walk has not been there.
    next: Option<Bounds>,
}

/// Stands at the box of a node. It keeps that box and the splits above it, from which the boxes behind it follow, so that
/// the boxes are not all kept at once.
#[derive(Debug, Drop)]
pub struct Walk {
    sides: List<Bounds>,
    turns: List<Turn>,
    over: bool,
}

impl Walk {
    /// A walk that stands at the root.
    #[tactic(auto, unfolding(crate::specs::Walks::boxes, crate::specs::Walks::IsWalk))]
    pub fn new(alloc: Global, root: List<Bounds>) -> Walk
        ensures boxes { spec.boxes result ≡ root ∷ [] }
        ensures walk { spec.IsWalk result }
    {
        Walk {
            sides: root,
            turns: List::new(alloc),
            over: false,
        }
    }

    /// The box where the walk stands, or none behind the last node.
    #[tactic(auto, unfolding(crate::specs::Walks::boxes, crate::specs::Walks::IsWalk))]
    pub fn here(&self) -> Option<&[Bounds]>
        ensures { MatchOption result (spec.boxes self.now ≡ []) (λ sides. spec.boxes self.now ≡ sides.now ∷ spec.behind_first (spec.boxes self.now)) }
    {
        if self.over {
            None
        } else {
            Some(self.sides.as_slice())
        }
    }

    /// Goes on to the box of the next node. A split parts the box where the walk stands.
    pub fn pass(&mut self, node: &Node) -> Result<(), Memory>
        requires walk { spec.IsWalk self.old }
        requires parted { spec.PartsFirst node.now (spec.boxes self.old) }
        ensures walk { OnOk result (spec.IsWalk self.new) }
        ensures boxes { OnOk result (spec.boxes self.new ≡ spec.behind_node node.now (spec.boxes self.old)) }
    {
        match node {
            Node::Split { column, at, .. } => self.go_low(*column, *at),
            Node::Closed(_) => self.go_on(),
        }
    }

    /// Goes on to the lower part of the box.
    fn go_low(&mut self, column: u32, at: i64) -> Result<(), Memory>
        requires walk { spec.IsWalk self.old }
        requires parted { spec.PartsFirst (Split column at Plain) (spec.boxes self.old) }
        ensures walk { OnOk result (spec.IsWalk self.new) }
        ensures boxes { OnOk result (spec.boxes self.new ≡ spec.split_first column at (spec.boxes self.old)) }
    {
        let place = column as usize;
        let side = self.sides.as_slice()[place];
        let next = Some(high_side(side, at));
        self.turns.push(Turn { column, side, next })?;
        self.sides.set(place, low_side(side, at));
        Ok(())
    }

    /// Goes on to the nearest box that waits.
    fn go_on(&mut self) -> Result<(), Memory>
        requires { spec.IsWalk self.old }
        ensures walk { OnOk result (spec.IsWalk self.new) }
        ensures boxes { OnOk result (spec.boxes self.new ≡ spec.behind_first (spec.boxes self.old)) }
    {
        'back: while let Some(turn) = self.turns.pop() {
            let place = turn.column as usize;
            if let Some(side) = turn.next {
                self.sides.set(place, side);
                self.turns.push(Turn { next: None, ..turn })?;
                return Ok(());
            }
            self.sides.set(place, turn.side);
        }
        self.over = true;
        Ok(())
    }
}

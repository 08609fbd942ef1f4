//! The listing: depth first, the low half before the high one, each worked node paid from the budget.

ghost use Rattle.std.specs.Prelude.{◌≡◌, ◌<◌, ◌^◌, [], ◌∷◌, ◌++◌, OnOk, IfOk};
ghost use Rattle.branch_tree.specs.Listing.{lows};
ghost use Rattle.ip_rows.specs.Programs.{IsMeasured, IsWellFormed};
ghost use Rattle.whole_points.specs.Matched.{IsMatched, world_count};
ghost use Rattle.program_leaves.specs.Leaves.{IsInside, leaf_value, root_of, worlds_in};
ghost use Rattle.point_listing.specs.Works.{Works, Lists, better_of, best_value, is_less};

use crate::halves::{first_lows, first_open, halves, middle, put};
use base_kit::{List, Memory};
use bool_encode::ColumnMap;
use branch_tree::{Branches, Leaf, Node, Reason};
use ip_rows::{Bounds, Program};
use program_leaves::{leaf_value, root_sides};
use prov_fold::Fold;
use std::alloc::Global;

/// The best leaf so far: the value of its point, and the numbers of its world.
#[derive(Debug, Drop)]
pub struct Found {
    pub value: i128,
    pub world: List<i64>,
}

/// What a search has done, and what it may still do.
#[derive(Debug, Drop)]
pub struct Search {
    pub nodes: List<Node>,
    pub left: u32,
    pub best: Option<Found>,
}

/// The tree that was listed, and the best leaf, if any has a value.
#[derive(Debug, Drop)]
pub struct Listed {
    pub tree: Branches,
    pub best: Option<Found>,
}

/// Lists the worlds of a program, of which none is better than the best that is found, until the box is listed whole or the
/// budget of worked nodes is spent. `worlds` is the number of the world columns.
pub fn list_worlds(
    alloc: Global,
    program: &Program,
    fold: &Fold<'_>,
    map: &ColumnMap,
    worlds: usize,
    budget: u32,
) -> Result<Listed, Memory>
    requires formed { IsWellFormed program.now }
    requires measured { IsMeasured program.now }
    requires matched { IsMatched program.now fold.now map.now.stands }
    requires worlds { worlds ≡ world_count map.now.stands }
    requires budget { budget < 2 ^ 31 }
    ensures { IfOk result (Lists program.now fold.now map.now.stands budget) }
{
    let root = root_sides(alloc, program)?;
    let mut sides = copy_of(alloc, root.as_slice())?;
    let mut search = Search {
        nodes: List::new(alloc),
        left: budget,
        best: None,
    };
    explore(
        alloc,
        program,
        fold,
        map,
        worlds,
        sides.as_mut_slice(),
        &mut search,
    )?;
    let Search { nodes, best, .. } = search;
    match Branches::from_nodes(nodes) {
        Some(tree) => Ok(Listed { tree, best }),
        None => unreachable!(),
    }
}

/// Works the subtree of a box, and leaves the box as it was.
fn explore(
    alloc: Global,
    program: &Program,
    fold: &Fold<'_>,
    map: &ColumnMap,
    worlds: usize,
    sides: &mut [Bounds],
    search: &mut Search,
) -> Result<(), Memory>
    requires formed { IsWellFormed program.now }
    requires measured { IsMeasured program.now }
    requires matched { IsMatched program.now fold.now map.now.stands }
    requires worlds { worlds ≡ world_count map.now.stands }
    requires inside { IsInside (root_of program.now) sides.old }
    ensures sides { OnOk result (sides.new ≡ sides.old) }
    ensures works { OnOk result (Works program.now fold.now map.now.stands sides.old search.old search.new) }
{
    if search.left == 0 {
        add(&mut search.nodes, Node::Closed(Leaf::Pending))?;
        return Ok(());
    }
    search.left -= 1;
    let column = match first_open(sides, worlds) {
        Some(column) => column,
        None => {
            close(alloc, program, fold, map, worlds, sides, search)?;
            return Ok(());
        }
    };
    let side = sides[column];
    let at = middle(side);
    let (low, high) = halves(side, at);
    let split = Node::Split {
        column: column as u32,
        at,
        reason: Reason::Plain,
    };
    add(&mut search.nodes, split)?;
    put(sides, column, low);
    explore(alloc, program, fold, map, worlds, sides, search)?;
    put(sides, column, high);
    explore(alloc, program, fold, map, worlds, sides, search)?;
    put(sides, column, side);
    Ok(())
}

/// The sides, to be narrowed.
fn copy_of(alloc: Global, sides: &[Bounds]) -> Result<Vec<Bounds>, Memory>
    ensures { IfOk result (λ copy. copy.items ≡ sides.now) }
{
    Ok(Vec::from_slice(alloc, sides)?)
}

/// Puts a node behind the others.
fn add(nodes: &mut List<Node>, node: Node) -> Result<(), Memory>
    ensures { OnOk result (nodes.new ≡ nodes.old ++ node ∷ []) }
{
    Ok(nodes.push(node)?)
}

/// Closes a box of one world, which becomes the best where its point has a better value.
fn close(
    alloc: Global,
    program: &Program,
    fold: &Fold<'_>,
    map: &ColumnMap,
    worlds: usize,
    sides: &[Bounds],
    search: &mut Search,
) -> Result<(), Memory>
    requires formed { IsWellFormed program.now }
    requires measured { IsMeasured program.now }
    requires matched { IsMatched program.now fold.now map.now.stands }
    requires worlds { worlds ≡ world_count map.now.stands }
    requires inside { IsInside (root_of program.now) sides.now }
    ensures nodes { OnOk result (search.new.nodes ≡ search.old.nodes ++ Node.Closed Leaf.Fixed ∷ []) }
    ensures left { search.new.left ≡ search.old.left }
    ensures best { OnOk result (search.new.best ≡ better_of search.old.best (lows (worlds_in map.now.stands sides.now)) (leaf_value program.now fold.now map.now.stands sides.now)) }
{
    add(&mut search.nodes, Node::Closed(Leaf::Fixed))?;
    let Some(value) = leaf_value(alloc, program, fold, map, sides)? else {
        return Ok(());
    };
    if is_better(&search.best, value) {
        let world = first_lows(alloc, sides, worlds)?;
        search.best = Some(Found { value, world });
    }
    Ok(())
}

/// Nothing is found yet, or the value is less.
fn is_better(best: &Option<Found>, value: i128) -> bool
    ensures { result ≡ is_less value (best_value best.now) }
{
    match best {
        Some(found) => value < found.value,
        None => true,
    }
}

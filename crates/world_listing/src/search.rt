//! The listing: depth first, the low half before the high one, each worked node paid from the budget, up to the first fault.

ghost use Rattle.std.specs.Prelude.{◌≡◌, ◌<◌, ◌^◌, length, [], ◌∷◌, ◌++◌, ℤ, Option, Ok, OnOk, IfOk, IfErr};
ghost use Rattle.branch_tree.specs.Listing.{AreSides, lows};
ghost use Rattle.world_def.specs.Views.{Gives};
ghost use Rattle.world_points.specs.Subject.{IsSubject};
ghost use Rattle.world_listing.specs.Judge.{value_by, judged_by};
ghost use Rattle.world_listing.specs.Faults.{FaultsAs};
ghost use Rattle.world_listing.specs.Works.{Works, Lists, IsJudgedTo, better_of, best_value, is_less};

use crate::halves::{first_open, halves, middle, put};
use base_kit::{List, Memory};
use branch_tree::{Branches, Leaf, Node, Reason, lowest_point};
use ip_rows::Bounds;
use std::alloc::Global;
use tiql_query::{Query, WorldColumn};
use world_def::{EvalFault, Tables};
use world_points::judge_point;

/// What the points are judged by: the query, its tables, and its world columns.
#[derive(Clone, Copy, Debug)]
pub struct Judge<'a> {
    pub query: &'a Query,
    pub tables: &'a Tables,
    pub columns: &'a List<WorldColumn>,
}

/// The best point so far, with its cost.
#[derive(Debug, Drop)]
pub struct Found {
    pub cost: i128,
    pub point: List<i64>,
}

/// What a search has done, and what it may still do.
#[derive(Debug, Drop)]
pub struct Search {
    pub nodes: List<Node>,
    pub left: u32,
    pub best: Option<Found>,
}

/// The tree that was listed, and the best point, if any leaf has one.
#[derive(Debug, Drop)]
pub struct Listed {
    pub tree: Branches,
    pub best: Option<Found>,
}

/// Lists the points of a box, of which none is better than the best that is found, until the box
/// is listed whole or the budget of worked nodes is spent.
pub fn list_points(
    alloc: Global,
    judge: &Judge,
    root: &[Bounds],
    budget: u32,
) -> Result<Listed, EvalFault>
    requires asked { IsSubject judge.now.query.now judge.now.tables.now judge.now.columns.now }
    requires sides { AreSides root.now }
    requires long { length root.now ≡ length judge.now.columns.now }
    requires budget { budget < 2 ^ 31 }
    ensures lists { IfOk result (Lists (value_by judge.now) (judged_by judge.now) root.now budget) }
    ensures fault { IfErr result (FaultsAs (judged_by judge.now) budget root.now) }
{
    let mut sides = copy_of(alloc, root)?;
    let mut search = Search {
        nodes: List::new(alloc),
        left: budget,
        best: None,
    };
    explore(alloc, judge, sides.as_mut_slice(), &mut search)?;
    let Search { nodes, best, .. } = search;
    match Branches::from_nodes(nodes) {
        Some(tree) => Ok(Listed { tree, best }),
        None => unreachable!(),
    }
}

/// Works the subtree of a box, and leaves the box as it was.
fn explore(
    alloc: Global,
    judge: &Judge,
    sides: &mut [Bounds],
    search: &mut Search,
) -> Result<(), EvalFault>
    requires asked { IsSubject judge.now.query.now judge.now.tables.now judge.now.columns.now }
    requires sides { AreSides sides.old }
    requires long { length sides.old ≡ length judge.now.columns.now }
    ensures sides { OnOk result (sides.new ≡ sides.old) }
    ensures works { OnOk result (Works (value_by judge.now) (judged_by judge.now) sides.old search.old search.new) }
    ensures fault { IfErr result (FaultsAs (judged_by judge.now) search.old.left sides.old) }
{
    if search.left == 0 {
        add(&mut search.nodes, Node::Closed(Leaf::Pending))?;
        return Ok(());
    }
    search.left -= 1;
    let column = match first_open(sides) {
        Some(column) => column,
        None => {
            close(alloc, judge, sides, search)?;
            return Ok(());
        }
    };
    let side = sides[column];
    let at = middle(side);
    let (low, high) = halves(side, at);
    let split = Node::Split {
        column: column as u32,
        at,
        reason: Reason::Plain,
    };
    add(&mut search.nodes, split)?;
    put(sides, column, low);
    explore(alloc, judge, sides, search)?;
    put(sides, column, high);
    explore(alloc, judge, sides, search)?;
    put(sides, column, side);
    Ok(())
}

/// The sides, to be narrowed.
fn copy_of(alloc: Global, sides: &[Bounds]) -> Result<Vec<Bounds>, Memory>
    ensures { IfOk result (λ copy. copy.items ≡ sides.now) }
{
    Ok(Vec::from_slice(alloc, sides)?)
}

/// Puts a node behind the others.
fn add(nodes: &mut List<Node>, node: Node) -> Result<(), Memory>
    ensures { OnOk result (nodes.new ≡ nodes.old ++ node ∷ []) }
{
    Ok(nodes.push(node)?)
}

/// Closes a box of one point, which becomes the best where it is better.
fn close(
    alloc: Global,
    judge: &Judge,
    sides: &[Bounds],
    search: &mut Search,
) -> Result<(), EvalFault>
    requires asked { IsSubject judge.now.query.now judge.now.tables.now judge.now.columns.now }
    requires long { length sides.now ≡ length judge.now.columns.now }
    ensures nodes { OnOk result (search.new.nodes ≡ search.old.nodes ++ Node.Closed Leaf.Fixed ∷ []) }
    ensures left { search.new.left ≡ search.old.left }
    ensures best { OnOk result (IsJudgedTo (judged_by judge.now (lows sides.now)) search.old.best (lows sides.now) search.new.best) }
    ensures fault { IfErr result (λ told. Gives {A = Option ℤ} (judged_by judge.now (lows sides.now)) (Err told)) }
{
    add(&mut search.nodes, Node::Closed(Leaf::Fixed))?;
    let point = lowest_point(alloc, sides)?;
    let Some(cost) = judged(alloc, judge, &point)? else {
        return Ok(());
    };
    if is_better(&search.best, cost) {
        search.best = Some(Found { cost, point });
    }
    Ok(())
}

/// The cost of a point, if it is that of a world that meets what is required.
pub fn judged(alloc: Global, judge: &Judge, point: &List<i64>) -> Result<Option<i128>, EvalFault>
    requires asked { IsSubject judge.now.query.now judge.now.tables.now judge.now.columns.now }
    requires long { length point.now ≡ length judge.now.columns.now }
    ensures { Gives (judged_by judge.now point.now) result }
{
    judge_point(
        alloc,
        judge.query,
        judge.tables,
        judge.columns,
        point.as_slice(),
    )
}

/// Nothing is found yet, or the value is less.
fn is_better(best: &Option<Found>, cost: i128) -> bool
    ensures { result ≡ is_less cost (best_value best.now) }
{
    match best {
        Some(found) => cost < found.cost,
        None => true,
    }
}

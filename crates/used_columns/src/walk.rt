//! Which nodes are used.
ghost use Rattle.std.specs.Prelude.{◌≡◌, ◌<◌, map, length, replicate, false, if◌then◌else◌, All, IfOk, OnOk};
ghost use Rattle.prov_arena.specs.declared.part.Term.{Term as TheTerm};
ghost use Rattle.prov_arena.specs.Formulas.{kids_of, MinNode};
ghost use Rattle.prov_fold.specs.Graphs.{node, size};
ghost use Rattle.used_columns.specs.Used.{made_of, all_made_of, names, mark_at, AreUsed};
ghost use Rattle.used_columns.specs.Marks.{marked, IsDoneFrom};

use crate::beside::{aid, known};
use base_kit::{List, Memory};
use prov_fold::{Fold, Pair, Part, Term};
use std::alloc::Global;

/// Which nodes are used, by their numbers: the seeds, and those whose columns the rows of used nodes name. These are the kids, and of an
/// Abs and a Min the truth that `aid` gives; a Not stands for its truth, and a number for the nodes of its terms. The seeds are nodes of the
/// list, those whose columns stand in the rows of roots and in the aim. `Err` is want of memory (docs/ENCODING.md).
pub fn used(alloc: Global, fold: &Fold<'_>, seeds: &[u32]) -> Result<List<bool>, Memory>
    requires { All (λ z. z < size fold.now) seeds.now }
    ensures used { IfOk result (λ marks. AreUsed fold.now seeds.now marks) }
{
    let mut marks = vec![in alloc; false; fold.prov().len() as usize]?;
    mark_used(alloc, fold, seeds, marks.as_mut_slice())?;
    Ok(List::from_vec(marks))
}

/// Marks the used nodes.
fn mark_used(
    alloc: Global,
    fold: &Fold<'_>,
    seeds: &[u32],
    marks: &mut [bool],
) -> Result<(), Memory>
    requires seeds { All (λ z. z < size fold.now) seeds.now }
    requires marks { marks.old ≡ replicate (size fold.now) false }
    ensures { OnOk result (AreUsed fold.now seeds.now marks.new) }
{
    known(fold);
    mark_each(marks, seeds);
    mark_down(alloc, fold, marks)
}

/// Marks these nodes.
fn mark_each(marks: &mut [bool], nodes: &[u32])
    requires { All (λ z. z < length marks.old) nodes.now }
    ensures { marks.new ≡ marked marks.old nodes.now }
{
    for node in nodes {
        marks[*node as usize] = true;
    }
}

/// Marks what the rows of marked nodes name. A row names nothing behind its node, so that once down the list is enough.
fn mark_down(alloc: Global, fold: &Fold<'_>, marks: &mut [bool]) -> Result<(), Memory>
    requires { length marks.old ≡ size fold.now }
    ensures { OnOk result (IsDoneFrom fold.now 0 marks.old marks.new) }
{
    known(fold);
    for id in (0..fold.prov().len()).rev() {
        visit(alloc, fold, marks, id)?;
    }
    Ok(())
}

/// Marks what the rows of a node name beside it, if the node is marked.
fn visit(alloc: Global, fold: &Fold<'_>, marks: &mut [bool], id: u32) -> Result<(), Memory>
    requires there { id < size fold.now }
    requires count { length marks.old ≡ size fold.now }
    ensures { OnOk result (marks.new ≡ (if mark_at marks.old id then marked marks.old (names fold.now id) else marks.old)) }
{
    if !marks[id as usize] {
        return Ok(());
    }
    mark_named(alloc, fold, marks, id)
}

/// Marks what the rows of a node name beside it.
#[tactic(auto, unfolding(crate::specs::Used::names))]
fn mark_named(alloc: Global, fold: &Fold<'_>, marks: &mut [bool], id: u32) -> Result<(), Memory>
    requires there { id < size fold.now }
    requires count { length marks.old ≡ size fold.now }
    ensures { OnOk result (marks.new ≡ marked marks.old (names fold.now id)) }
{
    match fold.prov().node(id) {
        Part::Pos(number) => mark(fold, marks, number),
        Part::And(kids) => mark_all(fold, marks, kids),
        Part::Or(kids) => mark_all(fold, marks, kids),
        Part::Guard(truth, number) => {
            mark(fold, marks, truth);
            mark(fold, marks, number);
        }
        Part::Abs(number) => {
            let sign = aid(alloc, fold, id)?;
            mark(fold, marks, number);
            mark(fold, marks, sign);
        }
        Part::Tot(number) => mark(fold, marks, number),
        Part::Min(pairs) => {
            let some = aid(alloc, fold, id)?;
            mark(fold, marks, some);
            mark_pairs(fold, marks, pairs);
        }
        _ => {}
    }
    Ok(())
}

/// Marks the truths and the numbers of pairs.
fn mark_pairs(fold: &Fold<'_>, marks: &mut [bool], pairs: &[Pair])
    requires there { All (λ k. k < size fold.now) (kids_of (MinNode pairs.now)) }
    requires count { length marks.old ≡ size fold.now }
    ensures { marks.new ≡ marked marks.old (all_made_of fold.now (kids_of (MinNode pairs.now))) }
{
    for pair in pairs {
        mark(fold, marks, pair.truth);
        mark(fold, marks, pair.number);
    }
}

/// Marks nodes.
fn mark_all(fold: &Fold<'_>, marks: &mut [bool], nodes: &[u32])
    requires there { All (λ k. k < size fold.now) nodes.now }
    requires count { length marks.old ≡ size fold.now }
    ensures { marks.new ≡ marked marks.old (all_made_of fold.now nodes.now) }
{
    for node in nodes {
        mark(fold, marks, *node);
    }
}

/// Marks what makes up a node: the truth of a Not, the nodes of a number's terms, and else the node itself.
fn mark(fold: &Fold<'_>, marks: &mut [bool], id: u32)
    requires there { id < size fold.now }
    requires count { length marks.old ≡ size fold.now }
    ensures { marks.new ≡ marked marks.old (made_of id (node fold.now id)) }
{
    match fold.prov().node(id) {
        Part::False => {}
        Part::True => {}
        Part::Not(truth) => marks[truth as usize] = true,
        Part::Lin(_, terms) => mark_terms(marks, terms),
        _ => marks[id as usize] = true,
    }
}

/// Marks the nodes of terms.
fn mark_terms(marks: &mut [bool], terms: &[Term])
    requires { All (λ (t : TheTerm). t.node < length marks.old) terms.now }
    ensures { marks.new ≡ marked marks.old (map (λ (t : TheTerm). t.node) terms.now) }
{
    for term in terms {
        marks[term.node as usize] = true;
    }
}

//! Which columns stand in the row of a form.
ghost use Rattle.std.specs.Prelude.{◌≡◌, ◌≢◌, ◌<◌, ◌^◌, ◌↔◌, ◌*ℤ◌, ◌+ℤ◌, ◌++◌, ◌∷◌, [], pos, if◌then◌else◌, slice_index_or, slice_set, replicate, unsigned_abs, length, All, Contains, IfOk, OnOk};
ghost use Rattle.std.specs.Ordering.{int_eq};
ghost use Rattle.prov_arena.specs.declared.part.Term.{Term as TheTerm};
ghost use Rattle.prov_fold.specs.Graphs.{node, size};
ghost use Rattle.prov_fold.specs.Rules.{factor_at, scaled};
ghost use Rattle.bool_encode.specs.Rows.{IsKey};
ghost use Rattle.used_columns.specs.Seeds.{key_terms, form_terms, terms_of, bulk, AreTotals, IsSeed};

use crate::beside::known;
use base_kit::{List, Memory};
use bool_encode::{Key, Piece};
use prov_fold::{Fold, Part, Term};
use std::alloc::Global;

/// The nodes whose columns stand in the row of a form, where like columns are joined: those whose factors do not cancel. A Not
/// stands for its truth, and a number for its terms. `totals` has a 0 for each node, and so it has behind the call, if that gave the seeds.
/// All factors together are below 2^63 in size. `Err` is want of memory (docs/ENCODING.md, "Which nodes are used").
pub fn seeds(
    alloc: Global,
    fold: &Fold<'_>,
    totals: &mut [i64],
    pieces: &[Piece],
) -> Result<List<u32>, Memory>
    requires totals { totals.old ≡ replicate (size fold.now) (pos 0) }
    requires there { All (λ (p : _). IsKey fold.now p.key) pieces.now }
    requires light { bulk (form_terms fold.now pieces.now) < 2 ^ 63 }
    ensures seeds { IfOk result (λ seeds. (z : _) → Contains seeds z ↔ IsSeed fold.now pieces.now z) }
    ensures totals { OnOk result (totals.new ≡ totals.old) }
{
    known(fold);
    let terms = spread(alloc, fold, pieces)?;
    add_all(totals, terms.as_slice());
    take_all(alloc, totals, terms.as_slice())
}

/// All terms of a form.
fn spread(alloc: Global, fold: &Fold<'_>, pieces: &[Piece]) -> Result<Vec<Term>, Memory>
    requires there { All (λ (p : _). IsKey fold.now p.key) pieces.now }
    requires small { All (λ (t : TheTerm). unsigned_abs t.factor < 2 ^ 63) (form_terms fold.now pieces.now) }
    ensures { IfOk result (λ terms. terms.items ≡ form_terms fold.now pieces.now) }
{
    let mut terms = Vec::new(alloc);
    for piece in pieces {
        spread_one(fold, &mut terms, *piece)?;
    }
    Ok(terms)
}

/// Appends the terms of a piece.
fn spread_one(fold: &Fold<'_>, terms: &mut Vec<Term>, piece: Piece) -> Result<(), Memory>
    requires there { IsKey fold.now piece.key }
    requires small { All (λ (t : TheTerm). unsigned_abs t.factor < 2 ^ 63) (scaled piece.factor (key_terms fold.now piece.key)) }
    ensures { OnOk result (terms.new.items ≡ terms.old.items ++ scaled piece.factor (key_terms fold.now piece.key)) }
{
    match piece.key {
        Key::Node(id) => spread_node(fold, terms, piece.factor, id),
        Key::Selector { .. } => Ok(()),
    }
}

/// Appends the terms of a node, times a factor.
fn spread_node(fold: &Fold<'_>, terms: &mut Vec<Term>, factor: i64, id: u32) -> Result<(), Memory>
    requires there { id < size fold.now }
    requires small { All (λ (t : TheTerm). unsigned_abs t.factor < 2 ^ 63) (scaled factor (terms_of id (node fold.now id))) }
    ensures { OnOk result (terms.new.items ≡ terms.old.items ++ scaled factor (terms_of id (node fold.now id))) }
{
    match fold.prov().node(id) {
        Part::False => Ok(()),
        Part::True => Ok(()),
        Part::Not(truth) => add_scaled(
            terms,
            factor,
            &[Term {
                factor: -1,
                node: truth,
            }],
        ),
        Part::Lin(_, more) => add_scaled(terms, factor, more),
        _ => add_scaled(
            terms,
            factor,
            &[Term {
                factor: 1,
                node: id,
            }],
        ),
    }
}

/// Appends terms times a factor.
fn add_scaled(terms: &mut Vec<Term>, factor: i64, more: &[Term]) -> Result<(), Memory>
    requires { All (λ (t : TheTerm). unsigned_abs t.factor < 2 ^ 63) (scaled factor more.now) }
    ensures { OnOk result (terms.new.items ≡ terms.old.items ++ scaled factor more.now) }
{
    for term in more {
        terms.push(times(factor, *term))?;
    }
    Ok(())
}

/// A term times a factor.
fn times(factor: i64, term: Term) -> Term
    requires { unsigned_abs (factor *ℤ term.factor) < 2 ^ 63 }
    ensures factor { result.factor ≡ factor *ℤ term.factor }
    ensures node { result.node ≡ term.node }
{
    Term {
        factor: factor * term.factor,
        node: term.node,
    }
}

/// Adds the factor of each term to its node's total.
fn add_all(totals: &mut [i64], terms: &[Term])
    requires totals { totals.old ≡ replicate (length totals.old) (pos 0) }
    requires there { All (λ (t : TheTerm). t.node < length totals.old) terms.now }
    requires light { bulk terms.now < 2 ^ 63 }
    ensures { AreTotals (length totals.old) terms.now totals.new }
{
    for term in terms {
        let node = term.node as usize;
        totals[node] = sum(totals[node], term.factor);
    }
}

/// The sum of two numbers.
fn sum(total: i64, factor: i64) -> i64
    requires { unsigned_abs (total +ℤ factor) < 2 ^ 63 }
    ensures { result ≡ total +ℤ factor }
{
    total + factor
}

/// The nodes of terms whose totals are not 0, each once, with all totals at 0 behind.
fn take_all(alloc: Global, totals: &mut [i64], terms: &[Term]) -> Result<List<u32>, Memory>
    requires there { All (λ (t : TheTerm). t.node < length totals.old) terms.now }
    requires totals { AreTotals (length totals.old) terms.now totals.old }
    ensures seeds { IfOk result (λ seeds. (z : _) → Contains seeds z ↔ (factor_at terms.now z ≢ pos 0)) }
    ensures totals { OnOk result (totals.new ≡ replicate (length totals.old) (pos 0)) }
{
    let mut seeds = List::new(alloc);
    for term in terms {
        take(&mut seeds, totals, term.node)?;
    }
    Ok(seeds)
}

/// Appends a node whose total is not 0, and puts the total to 0.
fn take(seeds: &mut List<u32>, totals: &mut [i64], node: u32) -> Result<(), Memory>
    requires { node < length totals.old }
    ensures seeds { OnOk result (seeds.new ≡ (if int_eq (slice_index_or totals.old node (pos 0)) (pos 0) then seeds.old else seeds.old ++ node ∷ [])) }
    ensures totals { OnOk result (totals.new ≡ slice_set totals.old node (pos 0)) }
{
    if totals[node as usize] != 0 {
        seeds.push(node)?;
    }
    totals[node as usize] = 0;
    Ok(())
}

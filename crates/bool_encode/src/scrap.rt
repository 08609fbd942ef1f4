//! The terms of a row: sorted by column, and like columns joined.
ghost use Rattle.std.specs.Prelude.{◌≡◌, ◌≢◌, ◌+◌, ◌<◌, ◌≤◌, ◌^◌, ◌*ℤ◌, ◌+ℤ◌, ◌++◌, ◌∷◌, [], pos, unsigned_abs, map, filter, not, length, All, IfOk, OnOk, if◌then◌else◌, ◌==◌};
ghost use Rattle.std.specs.List.Sorted.{IsPermutation, IsNonDecreasingBy};
ghost use Rattle.prov_fold.specs.Sums.{added_by};
ghost use Rattle.bool_encode.specs.Scraps.{joins, together, kept};

use base_kit::{List, Memory};
use ip_rows::Coef;
use std::alloc::Global;

/// A term of a row that may still be joined with others.
#[derive(Clone, Copy, Debug)]
pub(crate) struct Scrap {
    pub(crate) column: u32,
    pub(crate) factor: i128,
}

/// The terms sorted by column, with like columns joined and without those of factor 0.
pub(crate) fn joined(alloc: Global, mut scraps: Vec<Scrap>) -> Result<List<Coef>, Memory>
    requires { added_by (λ (s : _). unsigned_abs s.factor) scraps.items < 2 ^ 63 }
    ensures { IfOk result (λ terms. (sorted : _) × IsPermutation scraps.items sorted × IsNonDecreasingBy (λ (s : _). s.column) sorted × (terms ≡ kept (joins sorted))) }
{
    sort(&mut scraps)?;
    let all = join(alloc, scraps.as_slice())?;
    narrowed(alloc, all.as_slice())
}

/// Puts the columns into rising order.
fn sort(scraps: &mut Vec<Scrap>) -> Result<(), Memory>
    ensures permutation { IsPermutation scraps.old.items scraps.new.items }
    ensures sorted { OnOk result (IsNonDecreasingBy (λ (s : _). s.column) scraps.new.items) }
{
    scraps.sort_by_key(|scrap| scrap.column)?;
    Ok(())
}

/// The terms in rising order, with the factors at one column together.
fn join(alloc: Global, scraps: &[Scrap]) -> Result<Vec<Scrap>, Memory>
    requires { added_by (λ (s : _). unsigned_abs s.factor) scraps.now < 2 ^ 63 }
    ensures { IfOk result (λ all. all.items ≡ joins scraps.now) }
{
    let mut all = Vec::new(alloc);
    match scraps {
        [] => Ok(all),
        [first, rest @ ..] => {
            let mut current = *first;
            for scrap in rest {
                current = follow(&mut all, current, *scrap)?;
            }
            all.push(current)?;
            Ok(all)
        }
    }
}

/// What is current behind one more term: both together where they have one column, else the later one, with the earlier
/// one appended.
fn follow(all: &mut Vec<Scrap>, current: Scrap, scrap: Scrap) -> Result<Scrap, Memory>
    requires { unsigned_abs current.factor + unsigned_abs scrap.factor < 2 ^ 63 }
    ensures next { IfOk result (λ next. next ≡ (if current.column == scrap.column then together current scrap else scrap)) }
    ensures all { OnOk result (all.new.items ≡ (if current.column == scrap.column then all.old.items else all.old.items ++ current ∷ [])) }
{
    if current.column != scrap.column {
        all.push(current)?;
        return Ok(scrap);
    }
    Ok(Scrap {
        column: current.column,
        factor: current.factor + scrap.factor,
    })
}

/// The terms whose factors are not 0.
fn narrowed(alloc: Global, scraps: &[Scrap]) -> Result<List<Coef>, Memory>
    requires { All (λ scrap. unsigned_abs scrap.factor < 2 ^ 63) scraps.now }
    ensures { IfOk result (λ terms. terms ≡ kept scraps.now) }
{
    let mut terms = List::new(alloc);
    for scrap in scraps {
        if scrap.factor != 0 {
            terms.push(Coef {
                factor: scrap.factor as i64,
                column: scrap.column,
            })?;
        }
    }
    Ok(terms)
}

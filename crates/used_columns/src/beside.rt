//! The truth that the rows of a node name beside its kids.
ghost use Rattle.std.specs.Prelude.{◌≡◌, ◌<◌, ◌++◌, ◌∷◌, [], ◌==◌, nat_eq, true, not, if◌then◌else◌, map, filter, flat_map, length, All, IfOk, OnOk};
ghost use Rattle.std.specs.HashSet.{contains};
ghost use Rattle.std.specs.List.{list_any};
ghost use Rattle.prov_arena.specs.declared.part.Pair.{Pair as ThePair};
ghost use Rattle.prov_arena.specs.Formulas.{formula, kids_of, OrNode};
ghost use Rattle.prov_arena.specs.Graphs.{place_of};
ghost use Rattle.prov_fold.specs.Folds.{IsFold};
ghost use Rattle.prov_fold.specs.Graphs.{node, size};
ghost use Rattle.prov_fold.specs.Rules.{given, left, or_kids, or_of};
ghost use Rattle.cmp_encode.specs.Tables.{aid_of, found};
ghost use Rattle.used_columns.specs.Aids.{listed};

use base_kit::Memory;
use prov_fold::{Fold, Pair, Part};
use std::alloc::Global;
use std::collections::HashSet;

const FALSE: u32 = 0;

const TRUE: u32 = 1;

/// The truth that the rows of a node name beside the nodes that it names itself: of an Abs the Pos of its number, and of a Min the `or`
/// of its truths. It stands before the node. For every other kind it is False. `Err` is want of memory (docs/ENCODING.md).
pub fn aid(alloc: Global, fold: &Fold<'_>, id: u32) -> Result<u32, Memory>
    requires { id < size fold.now }
    ensures aid { IfOk result (λ aid. aid ≡ aid_of fold.now (node fold.now id)) }
    ensures there { IfOk result (λ aid. aid < size fold.now) }
{
    known(fold);
    match fold.prov().node(id) {
        Part::Abs(number) => Ok(place(fold, Part::Pos(number))),
        Part::Min(pairs) => {
            let truths = truths(alloc, pairs)?;
            or_place(alloc, fold, truths.as_slice())
        }
        _ => Ok(FALSE),
    }
}

/// What holds of every list is known where its formulas and ranges are read.
pub(crate) fn known(fold: &Fold<'_>)
    ensures { IsFold fold.now }
{
    let _count = fold.prov().len();
    let _range = fold.range(0);
}

/// The place of a part that stands in the list.
fn place(fold: &Fold<'_>, part: Part<'_>) -> u32
    requires { All (λ kid. kid < size fold.now) (kids_of (formula part)) }
    ensures { result ≡ found (place_of fold.now.parts (formula part.entry)) }
{
    fold.prov().find(part).unwrap_or(FALSE)
}

/// The truths of pairs.
fn truths(alloc: Global, pairs: &[Pair]) -> Result<Vec<u32>, Memory>
    ensures { IfOk result (λ truths. truths.items ≡ map (λ (p : ThePair). p.truth) pairs.now) }
{
    let mut truths = Vec::new(alloc);
    for pair in pairs {
        truths.push(pair.truth)?;
    }
    Ok(truths)
}

/// The place of the `or` of truths where it stands in the list: the kids of an Or stand for it, False and repeats are left out, True decides.
fn or_place(alloc: Global, fold: &Fold<'_>, truths: &[u32]) -> Result<u32, Memory>
    requires { All (λ kid. kid < size fold.now) truths.now }
    ensures { (place : _) → or_of truths.now fold.now ≡ given place fold.now → IfOk result (λ found. found ≡ place) }
{
    let all = spread(alloc, fold, truths)?;
    if has(all.as_slice(), TRUE) {
        return Ok(TRUE);
    }
    let some = without(alloc, all.as_slice(), FALSE)?;
    Ok(or_found(fold, some.as_slice()))
}

/// The place of the Or of truths that are distinct, and none of which is False, True or an Or.
fn or_found(fold: &Fold<'_>, kids: &[u32]) -> u32
    requires { All (λ kid. kid < size fold.now) kids.now }
    ensures { result ≡ listed fold.now kids.now }
{
    match kids {
        [] => FALSE,
        [kid] => *kid,
        _ => place(fold, Part::Or(kids)),
    }
}

/// Appends a truth, or the kids of an Or.
fn spread_one(fold: &Fold<'_>, all: &mut Vec<u32>, kid: u32) -> Result<(), Memory>
    requires { kid < size fold.now }
    ensures kids { OnOk result (all.new.items ≡ all.old.items ++ or_kids kid (node fold.now kid)) }
    ensures there { All (λ k. k < size fold.now) all.old.items → OnOk result (All (λ k. k < size fold.now) all.new.items) }
{
    match fold.prov().node(kid) {
        Part::Or(inner) => Ok(all.extend_from_slice(inner)?),
        _ => Ok(all.push(kid)?),
    }
}

/// The truths, with the kids of each Or in its place.
fn spread(alloc: Global, fold: &Fold<'_>, kids: &[u32]) -> Result<Vec<u32>, Memory>
    requires { All (λ kid. kid < size fold.now) kids.now }
    ensures kids { IfOk result (λ all. all.items ≡ flat_map (λ kid. or_kids kid (node fold.now kid)) kids.now) }
    ensures there { IfOk result (λ all. All (λ k. k < size fold.now) all.items) }
{
    let mut all = Vec::new(alloc);
    for kid in kids {
        spread_one(fold, &mut all, *kid)?;
    }
    Ok(all)
}

/// Whether a kid is among the kids.
fn has(kids: &[u32], kid: u32) -> bool
    ensures { result ≡ list_any (λ k. k == kid) kids.now }
{
    kids.iter().any(|k| *k == kid)
}

/// The kids that are not the unit, each where it comes first.
fn without(alloc: Global, kids: &[u32], unit: u32) -> Result<Vec<u32>, Memory>
    ensures { IfOk result (λ some. some.items ≡ left unit kids.now) }
{
    let mut seen = HashSet::new(alloc);
    let mut some = Vec::new(alloc);
    for kid in kids {
        if *kid != unit {
            add_first(&mut seen, &mut some, *kid)?;
        }
    }
    Ok(some)
}

/// Appends a kid that was not seen yet.
fn add_first(seen: &mut HashSet<u32>, some: &mut Vec<u32>, kid: u32) -> Result<(), Memory>
    ensures some { OnOk result (some.new.items ≡ (if contains nat_eq seen.old kid then some.old.items else some.old.items ++ kid ∷ [])) }
    ensures seen { OnOk result ((q : _) → contains nat_eq seen.new q ≡ (if nat_eq kid q then true else contains nat_eq seen.old q)) }
{
    if seen.insert(kid)? {
        some.push(kid)?;
    }
    Ok(())
}

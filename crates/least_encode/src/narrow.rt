//! The range of a least number where a pair is there.
ghost use Rattle.std.specs.Prelude.{◌≡◌, ◌<◌, map, All, IfOk};
ghost use Rattle.prov_arena.specs.declared.part.Pair.{Pair as ThePair};
ghost use Rattle.prov_fold.specs.Graphs.{range, size};
ghost use Rattle.prov_fold.specs.Spans.{least, greatest, lesser, greater, sure};
ghost use Rattle.cmp_encode.specs.Spans.{narrow_span as narrow_of};

use base_kit::Memory;
use prov_fold::{Fold, Pair, Span};
use std::alloc::Global;

/// The place of True in each list.
const TRUE: u32 = 1;

/// From the least lower end; where some pair's truth is True, to the least upper end among such pairs, else to the greatest
/// one. It is not widened to hold 0.
#[tactic(auto, unfolding(cmp_encode::specs::Spans::narrow_span))]
pub(crate) fn narrow_span(alloc: Global, fold: &Fold<'_>, pairs: &[Pair]) -> Result<Span, Memory>
    requires { All (λ (p : ThePair). p.number < size fold.now) pairs.now }
    ensures { IfOk result (λ span. span ≡ narrow_of (range fold.now) pairs.now) }
{
    let sure = sure_pairs(alloc, pairs)?;
    let lows = lows(alloc, fold, pairs)?;
    let lo = least_of(lows.as_slice());
    if sure.is_empty() {
        let highs = highs(alloc, fold, pairs)?;
        let hi = greatest_of(highs.as_slice());
        return Ok(Span { lo, hi });
    }
    let highs = highs(alloc, fold, sure.as_slice())?;
    let hi = least_of(highs.as_slice());
    Ok(Span { lo, hi })
}

/// The lower ends of the numbers.
fn lows(alloc: Global, fold: &Fold<'_>, pairs: &[Pair]) -> Result<Vec<i64>, Memory>
    requires { All (λ (p : ThePair). p.number < size fold.now) pairs.now }
    ensures { IfOk result (λ ends. ends.items ≡ map (λ (p : ThePair). (range fold.now p.number).lo) pairs.now) }
{
    let mut ends = Vec::new(alloc);
    for pair in pairs {
        ends.push(fold.range(pair.number).lo)?;
    }
    Ok(ends)
}

/// The upper ends of the numbers.
fn highs(alloc: Global, fold: &Fold<'_>, pairs: &[Pair]) -> Result<Vec<i64>, Memory>
    requires { All (λ (p : ThePair). p.number < size fold.now) pairs.now }
    ensures { IfOk result (λ ends. ends.items ≡ map (λ (p : ThePair). (range fold.now p.number).hi) pairs.now) }
{
    let mut ends = Vec::new(alloc);
    for pair in pairs {
        ends.push(fold.range(pair.number).hi)?;
    }
    Ok(ends)
}

/// The least of numbers, of none 0.
fn least_of(numbers: &[i64]) -> i64
    ensures { result ≡ least numbers.now }
{
    match numbers {
        [] => 0,
        [first, rest @ ..] => {
            let mut end = *first;
            for number in rest {
                end = lesser(end, *number);
            }
            end
        }
    }
}

/// The greatest of numbers, of none 0.
fn greatest_of(numbers: &[i64]) -> i64
    ensures { result ≡ greatest numbers.now }
{
    match numbers {
        [] => 0,
        [first, rest @ ..] => {
            let mut end = *first;
            for number in rest {
                end = greater(end, *number);
            }
            end
        }
    }
}

fn lesser(a: i64, b: i64) -> i64
    ensures { result ≡ lesser a b }
{
    a.min(b)
}

fn greater(a: i64, b: i64) -> i64
    ensures { result ≡ greater a b }
{
    a.max(b)
}

/// The pairs whose truth is True.
fn sure_pairs(alloc: Global, pairs: &[Pair]) -> Result<Vec<Pair>, Memory>
    ensures { IfOk result (λ some. some.items ≡ sure pairs.now) }
{
    let mut some = Vec::new(alloc);
    for pair in pairs {
        if pair.truth == TRUE {
            some.push(*pair)?;
        }
    }
    Ok(some)
}

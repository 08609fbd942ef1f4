//! Guards, sizes and least numbers.
ghost use Rattle.std.specs.Prelude.{◌≡◌, ◌<◌, ◌≤◌, ℕ, All, IfOk, OnOk, true, if◌then◌else◌, map, filter, pos, int_lt, neg_ℤ, length, ◌++◌, ◌∷◌, []};
ghost use Rattle.std.specs.HashSet.{contains};
ghost use Rattle.prov_arena.specs.Formulas.{formula, NotNode};
ghost use Rattle.prov_fold.specs.Kinds.{is_plain, HasTerms};
ghost use Rattle.prov_fold.specs.Spans.{min_span, size_span, least, greatest, lesser, greater, sure, IsLeastSpan};
ghost use Rattle.prov_fold.specs.Graphs.{node, range, size, Fits, HasNumber, HasTruth, HasPair, Keeps};
ghost use Rattle.prov_fold.specs.Folds.{OrStandsBefore};
ghost use Rattle.prov_fold.specs.Values.{holds};
ghost use Rattle.prov_fold.specs.Meanings.{Means};
ghost use Rattle.prov_fold.specs.Rules.{Follows, pairs_left, is_same_key};
ghost use Rattle.prov_fold.specs.Rules as rule;

use crate::fold::{FALSE, TRUE};
use crate::{Fold, FoldFault, Pair, Part, Scaled, Span};
use base_kit::Memory;
use std::alloc::Global;
use std::collections::HashSet;

impl<'a> Fold<'a> {
    /// The number where the truth holds, else 0.
    #[tactic(auto, unfolding(crate::specs::Rules::guard))]
    pub fn guard(&mut self, truth: u32, number: u32) -> Result<u32, FoldFault>
        requires truth { HasTruth self.old truth }
        requires number { HasNumber self.old number }
        ensures made { Follows (rule.guard truth number self.old) result self.new }
        ensures kept { Keeps self.old self.new }
        ensures number { IfOk result (λ id. HasNumber self.new id) }
        ensures means { IfOk result (λ id. Means self.new (λ _ v. v id ≡ (if holds v truth then v number else pos 0))) }
    {
        match self.node(truth) {
            Part::False => self.constant(0),
            Part::True => Ok(number),
            Part::Not(kid) => self.guard_not(truth, kid, number),
            _ => self.guard_plain(truth, number),
        }
    }

    /// The same where the truth is Not of the kid.
    fn guard_not(&mut self, truth: u32, kid: u32, number: u32) -> Result<u32, FoldFault>
        requires truth { truth < size self.old }
        requires not { node self.old truth ≡ NotNode kid }
        requires kid { kid < size self.old }
        requires plain { is_plain (node self.old kid) ≡ true }
        requires number { HasNumber self.old number }
        ensures made { Follows (rule.guard_number truth number (node self.old number) self.old) result self.new }
        ensures kept { Keeps self.old self.new }
        ensures number { IfOk result (λ id. HasNumber self.new id) }
    {
        let (constant, terms) = self.linear(number);
        if !terms.is_empty() {
            return self.guard_atom(truth, number);
        }
        let part = Scaled {
            factor: -constant,
            number: kid,
        };
        self.sum(constant, &[part])
    }

    /// The same where the truth is not folded into another.
    fn guard_plain(&mut self, truth: u32, number: u32) -> Result<u32, FoldFault>
        requires truth { truth < size self.old }
        requires plain { is_plain (node self.old truth) ≡ true }
        requires number { HasNumber self.old number }
        ensures made { Follows (rule.guard_number truth number (node self.old number) self.old) result self.new }
        ensures kept { Keeps self.old self.new }
        ensures number { IfOk result (λ id. HasNumber self.new id) }
    {
        let (constant, terms) = self.linear(number);
        if !terms.is_empty() {
            return self.guard_atom(truth, number);
        }
        let part = Scaled {
            factor: constant,
            number: truth,
        };
        self.sum(0, &[part])
    }

    /// The guard of a number that has terms.
    fn guard_atom(&mut self, truth: u32, number: u32) -> Result<u32, FoldFault>
        requires truth { HasTruth self.old truth }
        requires number { HasNumber self.old number }
        requires terms { HasTerms (node self.old number) }
        ensures made { Follows (rule.guard_number truth number (node self.old number) self.old) result self.new }
        ensures kept { Keeps self.old self.new }
        ensures number { IfOk result (λ id. HasNumber self.new id) }
    {
        let span = self.range(number).widened();
        self.number(Part::Guard(truth, number), span)
    }

    /// The size of a number.
    #[tactic(auto, unfolding(crate::specs::Rules::abs))]
    pub fn abs(&mut self, number: u32) -> Result<u32, FoldFault>
        requires { HasNumber self.old number }
        ensures made { Follows (rule.abs number self.old) result self.new }
        ensures kept { Keeps self.old self.new }
        ensures number { IfOk result (λ id. HasNumber self.new id) }
        ensures means { IfOk result (λ id. Means self.new (λ _ v. v id ≡ (if int_lt (v number) (pos 0) then neg_ℤ (v number) else v number))) }
    {
        let span = self.range(number);
        if span.lo >= 0 {
            return Ok(number);
        }
        if span.hi <= 0 {
            let minus = Scaled { factor: -1, number };
            return self.sum(0, &[minus]);
        }
        self.append(Part::Pos(number), Span::truth())?;
        self.number(Part::Abs(number), span.size())
    }

    /// The least of the numbers whose truth holds, and 0 where none does.
    #[tactic(auto, unfolding(crate::specs::Rules::min_of))]
    pub fn min(&mut self, pairs: &[Pair]) -> Result<u32, FoldFault>
        requires { All (λ pair. HasPair self.old pair) pairs.now }
        ensures made { Follows (rule.min_of pairs.now self.old) result self.new }
        ensures kept { Keeps self.old self.new }
        ensures number { IfOk result (λ id. HasNumber self.new id) }
        ensures means { IfOk result (λ id. Means self.new (λ _ v. v id ≡ least (map (λ (pair : _). v pair.number) (filter (λ (pair : _). holds v pair.truth) pairs.now)))) }
    {
        let some = distinct(self.alloc(), pairs)?;
        self.min_some(some.as_slice())
    }

    /// The same of pairs that are distinct and have no truth False.
    fn min_some(&mut self, pairs: &[Pair]) -> Result<u32, FoldFault>
        requires { All (λ pair. HasPair self.old pair) pairs.now }
        ensures made { Follows (rule.min_by pairs.now self.old) result self.new }
        ensures kept { Keeps self.old self.new }
        ensures number { IfOk result (λ id. HasNumber self.new id) }
    {
        match pairs {
            [] => self.constant(0),
            [pair] => self.guard(pair.truth, pair.number),
            _ => self.min_many(pairs),
        }
    }

    /// The same of two pairs or more.
    fn min_many(&mut self, pairs: &[Pair]) -> Result<u32, FoldFault>
        requires pairs { All (λ pair. HasPair self.old pair) pairs.now }
        requires many { 2 ≤ length pairs.now }
        ensures made { Follows (rule.min_by pairs.now self.old) result self.new }
        ensures kept { Keeps self.old self.new }
        ensures number { IfOk result (λ id. HasNumber self.new id) }
    {
        let truths = truths(self.alloc(), pairs)?;
        self.or(truths.as_slice())?;
        self.least(pairs)
    }

    /// The constant of the range of the least number, or the Min.
    fn least(&mut self, pairs: &[Pair]) -> Result<u32, FoldFault>
        requires pairs { All (λ pair. HasPair self.old pair) pairs.now }
        requires some { 0 < length pairs.now }
        requires or { OrStandsBefore self.old (size self.old) (map (λ (pair : _). pair.truth) pairs.now) }
        ensures made { Follows (rule.least_of pairs.now self.old) result self.new }
        ensures kept { Keeps self.old self.new }
        ensures number { IfOk result (λ id. HasNumber self.new id) }
    {
        let span = self.least_span(pairs)?;
        if span.lo == span.hi {
            return self.constant(span.lo);
        }
        self.number(Part::Min(pairs), span)
    }

    /// The range of the least number.
    fn least_span(&self, pairs: &[Pair]) -> Result<Span, Memory>
        requires pairs { All (λ pair. HasPair self.now pair) pairs.now }
        requires some { 0 < length pairs.now }
        ensures span { IfOk result (λ span. span ≡ min_span (range self.now) pairs.now) }
        ensures fits { IfOk result (λ span. IsLeastSpan span) }
    {
        let sure = sure_pairs(self.alloc(), pairs)?;
        let lows = self.lows(pairs)?;
        let lo = least_of(lows.as_slice());
        if sure.is_empty() {
            let highs = self.highs(pairs)?;
            let hi = greatest_of(highs.as_slice());
            let span = Span { lo, hi };
            return Ok(span.widened());
        }
        let highs = self.highs(sure.as_slice())?;
        let hi = least_of(highs.as_slice());
        Ok(Span { lo, hi })
    }

    /// The lower ends of the numbers.
    fn lows(&self, pairs: &[Pair]) -> Result<Vec<i64>, Memory>
        requires { All (λ pair. HasPair self.now pair) pairs.now }
        ensures { IfOk result (λ ends. ends.items ≡ map (λ (pair : _). (range self.now pair.number).lo) pairs.now) }
    {
        let mut ends = Vec::new(self.alloc());
        for pair in pairs {
            ends.push(self.range(pair.number).lo)?;
        }
        Ok(ends)
    }

    /// The upper ends of the numbers.
    fn highs(&self, pairs: &[Pair]) -> Result<Vec<i64>, Memory>
        requires { All (λ pair. HasPair self.now pair) pairs.now }
        ensures { IfOk result (λ ends. ends.items ≡ map (λ (pair : _). (range self.now pair.number).hi) pairs.now) }
    {
        let mut ends = Vec::new(self.alloc());
        for pair in pairs {
            ends.push(self.range(pair.number).hi)?;
        }
        Ok(ends)
    }
}

/// The least of numbers, of none 0.
fn least_of(numbers: &[i64]) -> i64
    ensures { result ≡ least numbers.now }
{
    match numbers {
        [] => 0,
        [first, rest @ ..] => {
            let mut end = *first;
            for number in rest {
                end = lesser(end, *number);
            }
            end
        }
    }
}

/// The greatest of numbers, of none 0.
fn greatest_of(numbers: &[i64]) -> i64
    ensures { result ≡ greatest numbers.now }
{
    match numbers {
        [] => 0,
        [first, rest @ ..] => {
            let mut end = *first;
            for number in rest {
                end = greater(end, *number);
            }
            end
        }
    }
}

pub(crate) fn lesser(a: i64, b: i64) -> i64
    ensures { result ≡ lesser a b }
{
    a.min(b)
}

fn greater(a: i64, b: i64) -> i64
    ensures { result ≡ greater a b }
{
    a.max(b)
}

/// The pairs whose truth is True.
fn sure_pairs(alloc: Global, pairs: &[Pair]) -> Result<Vec<Pair>, Memory>
    ensures { IfOk result (λ some. some.items ≡ sure pairs.now) }
{
    let mut some = Vec::new(alloc);
    for pair in pairs {
        if pair.truth == TRUE {
            some.push(*pair)?;
        }
    }
    Ok(some)
}

/// The pairs whose truth is not False, each where it comes first.
fn distinct(alloc: Global, pairs: &[Pair]) -> Result<Vec<Pair>, Memory>
    ensures { IfOk result (λ some. some.items ≡ pairs_left pairs.now) }
{
    let mut seen = HashSet::new(alloc);
    let mut some = Vec::new(alloc);
    for pair in pairs {
        if pair.truth != FALSE {
            add_first(&mut seen, &mut some, *pair)?;
        }
    }
    Ok(some)
}

/// Appends a pair that was not seen yet.
fn add_first(seen: &mut HashSet<(u32, u32)>, some: &mut Vec<Pair>, pair: Pair) -> Result<(), Memory>
    ensures some { OnOk result (some.new.items ≡ (if contains is_same_key seen.old (pair.truth, pair.number) then some.old.items else some.old.items ++ pair ∷ [])) }
    ensures seen { OnOk result ((q : ℕ × ℕ) → contains is_same_key seen.new q ≡ (if is_same_key (pair.truth, pair.number) q then true else contains is_same_key seen.old q)) }
{
    if seen.insert((pair.truth, pair.number))? {
        some.push(pair)?;
    }
    Ok(())
}

/// The truths of pairs.
fn truths(alloc: Global, pairs: &[Pair]) -> Result<Vec<u32>, Memory>
    ensures { IfOk result (λ truths. truths.items ≡ map (λ (pair : _). pair.truth) pairs.now) }
{
    let mut truths = Vec::new(alloc);
    for pair in pairs {
        truths.push(pair.truth)?;
    }
    Ok(truths)
}

//! Sums: like terms joined, and the ends of their ranges.
ghost use Rattle.std.specs.Prelude.{◌≡◌, ◌<◌, ◌≤◌, ◌^◌, ◌+◌, ◌*◌, ◌≤ℤ◌, ◌+ℤ◌, ◌-ℤ◌, ◌*ℤ◌, pos, unsigned_abs, length, map, filter, not, All, IfOk, OnOk, if◌then◌else◌, ◌==◌, ◌++◌, ◌∷◌, []};
ghost use Rattle.std.specs.List.Sorted.{IsPermutation, IsNonDecreasingBy, IsStrictlyIncreasing};
ghost use Rattle.std.specs.Ordering.{int_eq};
ghost use Rattle.prov_arena.specs.Formulas.{formula};
ghost use Rattle.prov_fold.specs.Graphs.{node, range, size, HasNumber, HasSummand, Keeps, Graph};
ghost use Rattle.prov_fold.specs.Folds.{IsFold};
ghost use Rattle.prov_fold.specs.Meanings.{Means};
ghost use Rattle.prov_fold.specs.Rules.{Follows, constant_of, constant_in, joined, scaled, spread, terms_in};
ghost use Rattle.prov_fold.specs.Rules as rule;
ghost use Rattle.prov_fold.specs.Spans.{lin_low, lin_high, passes as is_wide};
ghost use Rattle.prov_fold.specs.Sums.{added_by, total_by};
ghost use Rattle.prov_fold.specs.Scraps.{told, base_of, base_in, width_of, weight_of, fall_of, rise_of, joins, together, kept, Comes, IsGood};

use crate::fold::MOST;
use crate::{Fold, FoldFault, Part, Scaled, Span, Term};
use base_kit::Memory;
use std::alloc::Global;

/// A term of a sum whose factor is not judged yet.
#[derive(Clone, Copy, Debug)]
pub(crate) struct Scrap {
    pub(crate) node: u32,
    pub(crate) factor: i128,
}

impl<'a> Fold<'a> {
    /// The constant plus each part's factor times the part. The sizes of the factors add up to at most
    /// 10^18, and so small is the constant. `Wide` is the first of the result's constant, its lower end and
    /// its upper end that passes 10^17 in size.
    pub fn sum(&mut self, constant: i64, parts: &[Scaled]) -> Result<u32, FoldFault>
        requires parts { All (λ part. HasSummand self.old part.number) parts.now }
        requires factors { added_by (λ part. unsigned_abs part.factor) parts.now ≤ 10 ^ 18 }
        requires small { unsigned_abs constant ≤ 10 ^ 18 }
        ensures made { Follows (rule.sum constant parts.now self.old) result self.new }
        ensures kept { Keeps self.old self.new }
        ensures number { IfOk result (λ id. HasNumber self.new id) }
        ensures means { IfOk result (λ id. Means self.new (λ _ v. v id ≡ constant +ℤ total_by (λ part. part.factor *ℤ v part.number) parts.now)) }
    {
        let joined = self.joined(parts)?;
        let total = self.total(constant, parts);
        let base = self.base(constant, parts);
        let ends = self.ends(base, joined.as_slice());
        self.judge(total, ends, joined.as_slice())
    }

    /// The terms of the parts, sorted by node and joined.
    fn joined(&self, parts: &[Scaled]) -> Result<Vec<Scrap>, Memory>
        requires parts { All (λ part. HasSummand self.now part.number) parts.now }
        requires factors { added_by (λ part. unsigned_abs part.factor) parts.now ≤ 10 ^ 18 }
        ensures comes { IfOk result (λ all. Comes self.now parts.now all.items) }
        ensures fold { IsFold self.now }
    {
        let alloc = self.alloc();
        let mut scraps = self.scraps(parts)?;
        sort(&mut scraps)?;
        let all = join(alloc, scraps.as_slice())?;
        Ok(all)
    }

    /// The number of a constant and joined terms with these ends, or what of the three passes 10^17 in size.
    fn judge(&mut self, total: i128, ends: (i128, i128), joined: &[Scrap]) -> Result<u32, FoldFault>
        requires low { ends.0 ≡ lin_low (range self.old) total (kept joined.now) }
        requires high { ends.1 ≡ lin_high (range self.old) total (kept joined.now) }
        requires apart { ends.1 ≡ ends.0 +ℤ pos (added_by (λ (s : _). weight_of self.old (told s)) joined.now) }
        requires good { All (λ (s : _). IsGood self.old s.node) joined.now }
        requires rising { IsStrictlyIncreasing (map (λ (t : _). t.node) (kept joined.now)) }
        ensures made { Follows (rule.judged total (kept joined.now) self.old) result self.new }
        ensures kept { Keeps self.old self.new }
        ensures number { IfOk result (λ id. HasNumber self.new id) }
    {
        let (lo, hi) = ends;
        if let Some(number) = first_passing(total, lo, hi) {
            return Err(FoldFault::Wide(number));
        }
        let terms = narrowed(self.alloc(), joined)?;
        let span = Span {
            lo: lo as i64,
            hi: hi as i64,
        };
        self.append(Part::Lin(total as i64, terms.as_slice()), span)
    }

    /// All terms of the parts, each times its part's factor.
    fn scraps(&self, parts: &[Scaled]) -> Result<Vec<Scrap>, Memory>
        requires { All (λ part. HasSummand self.now part.number) parts.now }
        ensures { IfOk result (λ scraps. map (λ (s : _). told s) scraps.items ≡ spread self.now parts.now) }
    {
        let mut scraps = Vec::new(self.alloc());
        for part in parts {
            self.scale(&mut scraps, *part)?;
        }
        Ok(scraps)
    }

    /// Appends the terms of one part, times its factor.
    fn scale(&self, scraps: &mut Vec<Scrap>, part: Scaled) -> Result<(), Memory>
        requires { HasSummand self.now part.number }
        ensures { OnOk result (map (λ (s : _). told s) scraps.new.items ≡ map (λ (s : _). told s) scraps.old.items ++ scaled part.factor (terms_in part.number (node self.now part.number))) }
    {
        match self.node(part.number) {
            Part::False => Ok(()),
            Part::True => Ok(()),
            Part::Lin(_, terms) => scale_terms(scraps, part.factor, terms),
            _ => {
                let scrap = Scrap {
                    node: part.number,
                    factor: i128::from(part.factor),
                };
                Ok(scraps.push(scrap)?)
            }
        }
    }

    /// The constant, and each part's factor times the part's constant.
    fn total(&self, constant: i64, parts: &[Scaled]) -> i128
        requires parts { All (λ part. HasSummand self.now part.number) parts.now }
        requires factors { added_by (λ part. unsigned_abs part.factor) parts.now ≤ 10 ^ 18 }
        requires small { unsigned_abs constant ≤ 10 ^ 18 }
        ensures { result ≡ constant_of self.now constant parts.now }
    {
        let mut total = i128::from(constant);
        for part in parts {
            let more = part_times(part.factor, self.constant_in(part.number));
            total = plus(total, more);
        }
        total
    }

    /// The constant of a part of a sum.
    fn constant_in(&self, number: u32) -> i128
        requires { HasSummand self.now number }
        ensures value { result ≡ constant_in (node self.now number) }
        ensures small { unsigned_abs result ≤ 300000000000000000 }
    {
        match self.node(number) {
            Part::True => 1,
            Part::Lin(constant, _) => i128::from(constant),
            _ => 0,
        }
    }

    /// The value of the sum with each node at the lower end of its range.
    fn base(&self, constant: i64, parts: &[Scaled]) -> i128
        requires parts { All (λ part. HasSummand self.now part.number) parts.now }
        requires factors { added_by (λ part. unsigned_abs part.factor) parts.now ≤ 10 ^ 18 }
        requires small { unsigned_abs constant ≤ 10 ^ 18 }
        ensures value { result ≡ base_of self.now constant parts.now }
        ensures small { unsigned_abs result ≤ 10 ^ 36 }
    {
        let mut base = i128::from(constant);
        for part in parts {
            let more = part_times(part.factor, self.base_in(part.number));
            base = plus(base, more);
        }
        base
    }

    /// The same of one part, which lies in the part's range.
    fn base_in(&self, number: u32) -> i128
        requires { HasSummand self.now number }
        ensures value { result ≡ base_in self.now number }
        ensures small { unsigned_abs result ≤ 300000000000000000 }
    {
        match self.node(number) {
            Part::True => 1,
            Part::Lin(_, terms) => i128::from(self.range(number).lo) - self.fall(terms),
            _ => 0,
        }
    }

    /// How far a number's lower end lies from its value at the lower ends of its terms' nodes: below it
    /// by each negative factor's reach.
    fn fall(&self, terms: &[Term]) -> i128
        requires below { All (λ term. term.node < size self.now) terms.now }
        requires weight { added_by (weight_of self.now) terms.now ≤ 200000000000000000 }
        ensures value { result ≡ total_by (fall_of self.now) terms.now }
        ensures small { unsigned_abs result ≤ 200000000000000000 }
    {
        let mut fall = 0;
        for term in terms {
            let reach = self.reach(term.node, i128::from(term.factor));
            fall = plus(fall, reach.min(0));
        }
        fall
    }

    /// A factor times how far the ends of a node's range are apart.
    fn reach(&self, id: u32, factor: i128) -> i128
        requires below { id < size self.now }
        requires small { unsigned_abs factor * width_of (range self.now id) ≤ 10 ^ 36 }
        ensures value { result ≡ factor *ℤ ((range self.now id).hi -ℤ (range self.now id).lo) }
        ensures small { unsigned_abs result ≡ unsigned_abs factor * width_of (range self.now id) }
    {
        times(factor, gap(self.range(id)))
    }

    /// The ends of the range of joined terms: from the value at the lower ends down by each negative
    /// reach, and up by each other one.
    fn ends(&self, base: i128, joined: &[Scrap]) -> (i128, i128)
        requires below { All (λ scrap. scrap.node < size self.now) joined.now }
        requires weight { added_by (λ (s : _). weight_of self.now (told s)) joined.now ≤ 10 ^ 36 }
        requires small { unsigned_abs base ≤ 10 ^ 36 }
        ensures lo { result.0 ≡ base +ℤ total_by (λ (s : _). fall_of self.now (told s)) joined.now }
        ensures hi { result.1 ≡ base +ℤ total_by (λ (s : _). rise_of self.now (told s)) joined.now }
    {
        let mut lo = base;
        let mut hi = base;
        for scrap in joined {
            let reach = self.reach(scrap.node, scrap.factor);
            lo = plus(lo, reach.min(0));
            hi = plus(hi, reach.max(0));
        }
        (lo, hi)
    }
}

/// How far the ends of a range are apart.
fn gap(span: Span) -> i128
    ensures value { result ≡ span.hi -ℤ span.lo }
{
    i128::from(span.hi) - i128::from(span.lo)
}

/// A product that fits.
fn times(a: i128, b: i128) -> i128
    requires { unsigned_abs a * unsigned_abs b ≤ 10 ^ 36 }
    ensures value { result ≡ a *ℤ b }
    ensures small { unsigned_abs result ≡ unsigned_abs a * unsigned_abs b }
{
    a * b
}

/// A part's factor times a number of the part.
pub(crate) fn part_times(factor: i64, number: i128) -> i128
    requires factor { unsigned_abs factor ≤ 2 * 10 ^ 18 }
    requires number { unsigned_abs number ≤ 300000000000000000 }
    ensures value { result ≡ factor *ℤ number }
    ensures small { unsigned_abs result ≤ 300000000000000000 * unsigned_abs factor }
{
    times(i128::from(factor), number)
}

/// A sum that fits.
pub(crate) fn plus(a: i128, b: i128) -> i128
    requires { unsigned_abs a + unsigned_abs b ≤ 4 * 10 ^ 36 }
    ensures { result ≡ a +ℤ b }
{
    a + b
}

/// Appends terms times a factor.
fn scale_terms(scraps: &mut Vec<Scrap>, factor: i64, terms: &[Term]) -> Result<(), Memory>
    ensures { OnOk result (map (λ (s : _). told s) scraps.new.items ≡ map (λ (s : _). told s) scraps.old.items ++ scaled factor terms.now) }
{
    for term in terms {
        scraps.push(Scrap {
            node: term.node,
            factor: i128::from(factor) * i128::from(term.factor),
        })?;
    }
    Ok(())
}

/// Puts the nodes into rising order.
fn sort(scraps: &mut Vec<Scrap>) -> Result<(), Memory>
    ensures permutation { IsPermutation scraps.old.items scraps.new.items }
    ensures sorted { OnOk result (IsNonDecreasingBy (λ (s : _). s.node) scraps.new.items) }
{
    scraps.sort_by_key(|scrap| scrap.node)?;
    Ok(())
}

/// The terms in rising order, with the factors at one node together.
fn join(alloc: Global, scraps: &[Scrap]) -> Result<Vec<Scrap>, Memory>
    requires { added_by (λ (s : _). unsigned_abs s.factor) scraps.now ≤ 10 ^ 36 }
    ensures { IfOk result (λ all. all.items ≡ joins scraps.now) }
{
    let mut all = Vec::new(alloc);
    match scraps {
        [] => Ok(all),
        [first, rest @ ..] => {
            let mut current = *first;
            for scrap in rest {
                current = follow(&mut all, current, *scrap)?;
            }
            all.push(current)?;
            Ok(all)
        }
    }
}

/// What is current behind one more term: both together where they have one node, else the later one,
/// with the earlier one appended.
fn follow(all: &mut Vec<Scrap>, current: Scrap, scrap: Scrap) -> Result<Scrap, Memory>
    requires { unsigned_abs current.factor + unsigned_abs scrap.factor ≤ 10 ^ 36 }
    ensures next { IfOk result (λ next. next ≡ (if current.node == scrap.node then together current scrap else scrap)) }
    ensures all { OnOk result (all.new.items ≡ (if current.node == scrap.node then all.old.items else all.old.items ++ current ∷ [])) }
{
    if current.node != scrap.node {
        all.push(current)?;
        return Ok(scrap);
    }
    Ok(Scrap {
        node: current.node,
        factor: current.factor + scrap.factor,
    })
}

/// The terms whose factors are not 0.
fn narrowed(alloc: Global, joined: &[Scrap]) -> Result<Vec<Term>, Memory>
    requires { All (λ scrap. unsigned_abs scrap.factor < 2 ^ 63) joined.now }
    ensures { IfOk result (λ terms. terms.items ≡ filter (λ (t : _). not (int_eq t.factor (pos 0))) (map (λ (s : _). told s) joined.now)) }
{
    let mut terms = Vec::new(alloc);
    for scrap in joined {
        if scrap.factor != 0 {
            terms.push(Term {
                factor: scrap.factor as i64,
                node: scrap.node,
            })?;
        }
    }
    Ok(terms)
}

/// The first of three numbers that passes 10^17 in size.
fn first_passing(total: i128, lo: i128, hi: i128) -> Option<i128>
    ensures { result ≡ (if is_wide total then Some total else (if is_wide lo then Some lo else (if is_wide hi then Some hi else None))) }
{
    if passes(total) {
        return Some(total);
    }
    if passes(lo) {
        return Some(lo);
    }
    if passes(hi) { Some(hi) } else { None }
}

fn passes(number: i128) -> bool
    ensures { result ≡ is_wide number }
{
    number.unsigned_abs() > u128::from(MOST)
}

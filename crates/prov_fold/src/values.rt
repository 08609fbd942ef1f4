//! Values on a world.
ghost use Rattle.std.specs.Prelude.{◌≡◌, ◌<◌, ◌≤◌, ◌+ℤ◌, ◌*ℤ◌, ◌≤ℤ◌, length, map, filter, All, Some, unsigned_abs, if◌then◌else◌};
ghost use Rattle.std.specs.List.{list_all, list_any};
ghost use Rattle.prov_arena.specs.declared.part.Term.{Term};
ghost use Rattle.prov_arena.specs.declared.part.Pair.{Pair};
ghost use Rattle.prov_arena.specs.Formulas.{formula};
ghost use Rattle.prov_fold.specs.Graphs.{node, range, size};
ghost use Rattle.prov_fold.specs.Sums.{added_by, total_by};
ghost use Rattle.prov_fold.specs.Spans.{least};
ghost use Rattle.prov_fold.specs.Values.{number_at, holds, value_of, values_of, nearest, HasNumbers, CanValue, IsNear};

use crate::atoms::lesser;
use crate::sums::{part_times, plus};
use crate::{Fold, Pair, Part, Term};

impl<'a> Fold<'a> {
    /// Writes the value of each node on a world, 0 or 1 for a truth. The world has a number for each column
    /// that a Pres or a Cell names, which lies in that node's range, and `out` is as long as the list. Each
    /// value lies in its node's range.
    pub fn fill(&self, world: &[i64], out: &mut [i64])
        requires world { HasNumbers self.now world.now }
        requires room { length out.old ≡ size self.now }
        ensures values { out.new ≡ values_of world.now self.now.parts }
        ensures low { (i : _) → i < size self.now → (range self.now i).lo ≤ℤ number_at out.new i }
        ensures high { (i : _) → i < size self.now → number_at out.new i ≤ℤ (range self.now i).hi }
    {
        'nodes: for id in 0..self.prov().len() {
            let before = &out[..id as usize];
            let value = value(self.node(id), world, before);
            out[id as usize] = value;
        }
    }
}

/// The value of a part by the values of the places before it.
fn value(part: Part<'_>, world: &[i64], values: &[i64]) -> i64
    requires { CanValue world.now values.now (formula part) }
    ensures { result ≡ value_of world.now (number_at values.now) (formula part.entry) }
{
    match part {
        Part::False => 0,
        Part::True => 1,
        Part::Pres(column) => i64::from(world[column as usize] == 1),
        Part::Cell(column) => world[column as usize],
        Part::Pos(number) => i64::from(values[number as usize] >= 0),
        Part::Not(truth) => i64::from(!holds(values, truth)),
        Part::And(kids) => i64::from(all_hold(values, kids)),
        Part::Or(kids) => i64::from(one_holds(values, kids)),
        Part::Lin(constant, terms) => linear(constant, terms, values),
        Part::Guard(truth, number) => {
            if holds(values, truth) {
                values[number as usize]
            } else {
                0
            }
        }
        Part::Abs(number) => values[number as usize].abs(),
        Part::Tot(number) => values[number as usize],
        Part::Min(pairs) => least(pairs, values),
    }
}

/// Whether a truth holds.
fn holds(values: &[i64], truth: u32) -> bool
    requires { truth < length values.now }
    ensures { result ≡ holds (number_at values.now) truth }
{
    values[truth as usize] == 1
}

/// Whether all truths hold.
fn all_hold(values: &[i64], kids: &[u32]) -> bool
    requires { All (λ kid. kid < length values.now) kids.now }
    ensures { result ≡ list_all (holds (number_at values.now)) kids.now }
{
    for kid in kids {
        if !holds(values, *kid) {
            return false;
        }
    }
    true
}

/// Whether one of the truths holds.
fn one_holds(values: &[i64], kids: &[u32]) -> bool
    requires { All (λ kid. kid < length values.now) kids.now }
    ensures { result ≡ list_any (holds (number_at values.now)) kids.now }
{
    for kid in kids {
        if holds(values, *kid) {
            return true;
        }
    }
    false
}

/// A constant plus terms. The sum of any first terms fits 128 bits.
fn linear(constant: i64, terms: &[Term], values: &[i64]) -> i64
    requires below { All (λ (t : Term). t.node < length values.now) terms.now }
    requires near { All (λ (t : Term). IsNear (number_at values.now t.node)) terms.now }
    requires factors { added_by (λ (t : Term). unsigned_abs t.factor) terms.now ≤ 200000000000000000 }
    requires constant { IsNear constant }
    requires whole { IsNear (constant +ℤ total_by (λ (t : Term). t.factor *ℤ number_at values.now t.node) terms.now) }
    ensures { result ≡ constant +ℤ total_by (λ (t : Term). t.factor *ℤ number_at values.now t.node) terms.now }
{
    let mut sum = i128::from(constant);
    for term in terms {
        let more = part_times(term.factor, i128::from(values[term.node as usize]));
        sum = plus(sum, more);
    }
    sum as i64
}

/// The least number whose truth holds, and 0 where none does.
fn least(pairs: &[Pair], values: &[i64]) -> i64
    requires { All (λ (p : Pair). (p.truth < length values.now) × (p.number < length values.now)) pairs.now }
    ensures { result ≡ least (map (λ (p : Pair). number_at values.now p.number) (filter (λ (p : Pair). holds (number_at values.now) p.truth) pairs.now)) }
{
    let mut found = None;
    for pair in pairs {
        found = next(
            found,
            holds(values, pair.truth),
            values[pair.number as usize],
        );
    }
    found.unwrap_or(0)
}

/// The least so far, with one more number where it counts.
fn next(found: Option<i64>, counts: bool, number: i64) -> Option<i64>
    ensures { result ≡ (if counts then Some (nearest found number) else found) }
{
    if !counts {
        return found;
    }
    match found {
        None => Some(number),
        Some(least) => Some(lesser(least, number)),
    }
}

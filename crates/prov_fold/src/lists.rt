//! Lists of truths: and, or.
ghost use Rattle.std.specs.Prelude.{◌≡◌, ℕ, All, IfOk, OnOk, not, ◌==◌, nat_eq, if◌then◌else◌, true, filter, flat_map, length, ◌<◌, ◌++◌, ◌∷◌, []};
ghost use Rattle.std.specs.HashSet.{contains};
ghost use Rattle.prov_arena.specs.Formulas.{formula, AndNode, OrNode};
ghost use Rattle.std.specs.List.{list_all, list_any};
ghost use Rattle.prov_fold.specs.Graphs.{node, size, HasTruth, Keeps};
ghost use Rattle.prov_fold.specs.Values.{holds};
ghost use Rattle.prov_fold.specs.Meanings.{Means};
ghost use Rattle.prov_fold.specs.Rules.{Follows, left, and_kids, or_kids};
ghost use Rattle.prov_fold.specs.Rules as rule;

use crate::fold::{FALSE, TRUE};
use crate::{Fold, FoldFault, Part, Span};
use base_kit::Memory;
use std::alloc::Global;
use std::collections::HashSet;

impl<'a> Fold<'a> {
    /// Whether all of the truths hold.
    pub fn and(&mut self, kids: &[u32]) -> Result<u32, FoldFault>
        requires { All (λ kid. HasTruth self.old kid) kids.now }
        ensures made { Follows (rule.and_of kids.now self.old) result self.new }
        ensures kept { Keeps self.old self.new }
        ensures truth { IfOk result (λ id. HasTruth self.new id) }
        ensures means { IfOk result (λ id. Means self.new (λ _ v. holds v id ≡ list_all (holds v) kids.now)) }
    {
        let all = self.and_spread(kids)?;
        if has(all.as_slice(), FALSE) {
            return Ok(self.fixed(false));
        }
        let some = without(self.alloc(), all.as_slice(), TRUE)?;
        self.and_of(some.as_slice())
    }

    /// The same of truths that are distinct, and none of which is False, True or an And.
    fn and_of(&mut self, kids: &[u32]) -> Result<u32, FoldFault>
        requires { All (λ kid. HasTruth self.old kid) kids.now }
        ensures made { Follows (rule.list_by 1 (λ ks. AndNode ks) kids.now self.old) result self.new }
        ensures kept { Keeps self.old self.new }
        ensures truth { IfOk result (λ id. HasTruth self.new id) }
    {
        match kids {
            [] => Ok(self.fixed(true)),
            [kid] => Ok(*kid),
            _ => self.append(Part::And(kids), Span::truth()),
        }
    }

    /// Whether one of the truths holds.
    pub fn or(&mut self, kids: &[u32]) -> Result<u32, FoldFault>
        requires { All (λ kid. HasTruth self.old kid) kids.now }
        ensures made { Follows (rule.or_of kids.now self.old) result self.new }
        ensures kept { Keeps self.old self.new }
        ensures truth { IfOk result (λ id. HasTruth self.new id) }
        ensures means { IfOk result (λ id. Means self.new (λ _ v. holds v id ≡ list_any (holds v) kids.now)) }
    {
        let all = self.or_spread(kids)?;
        if has(all.as_slice(), TRUE) {
            return Ok(self.fixed(true));
        }
        let some = without(self.alloc(), all.as_slice(), FALSE)?;
        self.or_of(some.as_slice())
    }

    /// The same of truths that are distinct, and none of which is False, True or an Or.
    fn or_of(&mut self, kids: &[u32]) -> Result<u32, FoldFault>
        requires { All (λ kid. HasTruth self.old kid) kids.now }
        ensures made { Follows (rule.list_by 0 (λ ks. OrNode ks) kids.now self.old) result self.new }
        ensures kept { Keeps self.old self.new }
        ensures truth { IfOk result (λ id. HasTruth self.new id) }
    {
        match kids {
            [] => Ok(self.fixed(false)),
            [kid] => Ok(*kid),
            _ => self.append(Part::Or(kids), Span::truth()),
        }
    }

    /// Appends a truth, or the kids of an And.
    fn and_one(&self, all: &mut Vec<u32>, kid: u32) -> Result<(), Memory>
        requires { HasTruth self.now kid }
        ensures kids { OnOk result (all.new.items ≡ all.old.items ++ and_kids kid (node self.now kid)) }
        ensures truths { All (HasTruth self.now) all.old.items → OnOk result (All (HasTruth self.now) all.new.items) }
    {
        match self.node(kid) {
            Part::And(inner) => Ok(all.extend_from_slice(inner)?),
            _ => Ok(all.push(kid)?),
        }
    }

    /// The truths, with the kids of each And in its place.
    fn and_spread(&self, kids: &[u32]) -> Result<Vec<u32>, Memory>
        requires { All (λ kid. HasTruth self.now kid) kids.now }
        ensures kids { IfOk result (λ all. all.items ≡ flat_map (λ kid. and_kids kid (node self.now kid)) kids.now) }
        ensures truths { IfOk result (λ all. All (λ kid. HasTruth self.now kid) all.items) }
    {
        let mut all = Vec::new(self.alloc());
        for kid in kids {
            self.and_one(&mut all, *kid)?;
        }
        Ok(all)
    }

    /// Appends a truth, or the kids of an Or.
    fn or_one(&self, all: &mut Vec<u32>, kid: u32) -> Result<(), Memory>
        requires { HasTruth self.now kid }
        ensures kids { OnOk result (all.new.items ≡ all.old.items ++ or_kids kid (node self.now kid)) }
        ensures truths { All (HasTruth self.now) all.old.items → OnOk result (All (HasTruth self.now) all.new.items) }
    {
        match self.node(kid) {
            Part::Or(inner) => Ok(all.extend_from_slice(inner)?),
            _ => Ok(all.push(kid)?),
        }
    }

    /// The truths, with the kids of each Or in its place.
    fn or_spread(&self, kids: &[u32]) -> Result<Vec<u32>, Memory>
        requires { All (λ kid. HasTruth self.now kid) kids.now }
        ensures kids { IfOk result (λ all. all.items ≡ flat_map (λ kid. or_kids kid (node self.now kid)) kids.now) }
        ensures truths { IfOk result (λ all. All (λ kid. HasTruth self.now kid) all.items) }
    {
        let mut all = Vec::new(self.alloc());
        for kid in kids {
            self.or_one(&mut all, *kid)?;
        }
        Ok(all)
    }
}

/// Whether a kid is among the kids.
fn has(kids: &[u32], kid: u32) -> bool
    ensures { result ≡ list_any (λ k. k == kid) kids.now }
{
    kids.iter().any(|k| *k == kid)
}

/// The kids that are not the unit, each where it comes first.
fn without(alloc: Global, kids: &[u32], unit: u32) -> Result<Vec<u32>, Memory>
    ensures { IfOk result (λ some. some.items ≡ left unit kids.now) }
{
    let mut seen = HashSet::new(alloc);
    let mut some = Vec::new(alloc);
    for kid in kids {
        if *kid != unit {
            add_first(&mut seen, &mut some, *kid)?;
        }
    }
    Ok(some)
}

/// Appends a kid that was not seen yet.
fn add_first(seen: &mut HashSet<u32>, some: &mut Vec<u32>, kid: u32) -> Result<(), Memory>
    ensures some { OnOk result (some.new.items ≡ (if contains nat_eq seen.old kid then some.old.items else some.old.items ++ kid ∷ [])) }
    ensures seen { OnOk result ((q : _) → contains nat_eq seen.new q ≡ (if nat_eq kid q then true else contains nat_eq seen.old q)) }
{
    if seen.insert(kid)? {
        some.push(kid)?;
    }
    Ok(())
}

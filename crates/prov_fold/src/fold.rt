//! The list of formulas with their ranges.
ghost use Rattle.std.specs.Prelude.{◌≡◌, ◌≢◌, ◌<◌, ◌≤◌, ◌≤ℤ◌, pos, unsigned_abs, [], ◌∷◌, ◌++◌, IfOk, IfSome, IfNone, OnOk, OnErr, length, All, true, not, int_le, IsTrue, if◌then◌else◌};
ghost use Rattle.prov_arena.specs.Formulas.{formula, FalseNode, TrueNode, LinNode};
ghost use Rattle.prov_fold.specs.Spans.{span_at, truth_span};
ghost use Rattle.prov_fold.specs.Sides.{ranges_of, HasSides};
ghost use Rattle.prov_fold.specs.Kinds.{is_number, is_truth, is_term};
ghost use Rattle.prov_fold.specs.Graphs.{node, range, size, Fits, HasNumber, HasTruth, Keeps};
ghost use Rattle.prov_fold.specs.Folds.{HasAid, IsFold};
ghost use Rattle.prov_fold.specs.Values.{as_number, holds, number_at, IsThere};
ghost use Rattle.prov_fold.specs.Meanings.{Means};
ghost use Rattle.prov_fold.specs.Rules.{Follows};
ghost use Rattle.prov_fold.specs.Rules as rule;

use crate::{FoldFault, Part, Prov, Span, Term};
use base_kit::Memory;
use bumpalo::Bump;
use std::alloc::Global;
use std::marker::Model;

/// How many parts the list has at most.
const MOST_PARTS: u32 = 20_000_000;
/// No number of the list passes this in size.
pub(crate) const MOST: u64 = 100_000_000_000_000_000;

pub(crate) const FALSE: u32 = 0;

pub(crate) const TRUE: u32 = 1;

/// A list of formulas, made by the fold rules, with the range of each. Nodes are named by their places.
#[derive(Drop)]
pub struct Fold<'a> {
    alloc: Global,
    prov: Prov<'a>,
    ranges: Vec<Span>,
}

impl<'a> Model for Fold<'a> {
    ghost use Rattle.prov_fold.specs.Graphs.{Graph};
    ghost use Rattle.prov_fold.specs.Folds.{IsFold};

    ghost Value = { Graph };

    ghost view = { λ f. record { parts = f.prov; ranges = f.ranges.items } };

    ghost invariant = { λ f. IsFold (record { parts = f.prov; ranges = f.ranges.items }) };
}

impl<'a> Fold<'a> {
    /// The list of False and True. `Err` is want of memory.
    pub fn start(alloc: Global, arena: &'a Bump) -> Result<Fold<'a>, Memory>
        ensures { IfOk result (λ fold. fold ≡ record { parts = FalseNode ∷ TrueNode ∷ []; ranges = truth_span ∷ truth_span ∷ [] }) }
    {
        let prov = match Prov::start(alloc, arena) {
            Ok(prov) => prov,
            Err(_) => return Err(Memory),
        };
        let ranges = Vec::from_slice(alloc, &[Span::truth(), Span::truth()])?;
        Ok(Fold {
            alloc,
            prov,
            ranges,
        })
    }

    /// The range of a node of the list, which the list and the columns' ranges tell.
    #[tactic(auto, using(crate::proofs::RangeLemmas::range_is))]
    pub fn range(&self, id: u32) -> Span
        requires { id < size self.now }
        ensures range { result ≡ range self.now id }
        ensures whole { (sides : _) → HasSides sides self.now → result ≡ span_at (ranges_of sides self.now.parts) id }
        ensures fits { Fits self.now result (node self.now id) }
        ensures fold { IsFold self.now }
    {
        self.ranges[id as usize]
    }

    /// The list without the ranges.
    pub fn prov(&self) -> &Prov<'a>
        ensures { result.now ≡ self.now.parts }
    {
        &self.prov
    }

    /// The part at a place.
    pub(crate) fn node(&self, id: u32) -> Part<'a>
        requires { id < size self.now }
        ensures part { formula result ≡ node self.now id }
        ensures fits { Fits self.now (range self.now id) (node self.now id) }
        ensures fold { IsFold self.now }
    {
        self.prov.node(id)
    }

    /// The allocator for what a call needs while it runs.
    pub(crate) fn alloc(&self) -> Global
        ensures { IsFold self.now }
    {
        self.alloc
    }

    /// The place of True where it holds, else of False.
    pub(crate) fn fixed(&self, holds: bool) -> u32
        ensures place { result ≡ (if holds then 1 else 0) }
        ensures truth { HasTruth self.now result }
        ensures fold { IsFold self.now }
    {
        // What holds of the list is known where a field is read.
        let _prov = &self.prov;
        if holds { TRUE } else { FALSE }
    }

    /// The part where it stands, else appended with this range.
    pub(crate) fn append(&mut self, part: Part<'_>, span: Span) -> Result<u32, FoldFault>
        requires fits { Fits self.old span (formula part) }
        requires aid { HasAid self.old (size self.old) (formula part) }
        ensures before { IsFold self.old }
        ensures made { Follows (rule.interned span (formula part.entry) self.old) result self.new }
        ensures kept { Keeps self.old self.new }
        ensures place { IfOk result (λ id. (id < size self.new) × (node self.new id ≡ formula part.entry)) }
    {
        if self.prov.len() == MOST_PARTS {
            return self.prov.find(part).ok_or(FoldFault::Full);
        }
        self.ranges.push(span)?;
        let made = self.prov.intern(part);
        self.ranges.truncate(self.prov.len() as usize);
        Ok(made?)
    }

    /// Whether a column's number is 1.
    #[tactic(auto, unfolding(crate::specs::Rules::pres))]
    pub fn pres(&mut self, column: u32) -> Result<u32, FoldFault>
        ensures made { Follows (rule.pres column self.old) result self.new }
        ensures kept { Keeps self.old self.new }
        ensures truth { IfOk result (λ id. HasTruth self.new id) }
        ensures means { IfOk result (λ id. Means self.new (λ world v. v id ≡ number_at world column)) }
    {
        self.append(Part::Pres(column), Span::truth())
    }

    /// Whether a number is 0 or above.
    #[tactic(auto, unfolding(crate::specs::Rules::pos_of))]
    pub fn pos(&mut self, number: u32) -> Result<u32, FoldFault>
        requires { HasNumber self.old number }
        ensures made { Follows (rule.pos_of number self.old) result self.new }
        ensures kept { Keeps self.old self.new }
        ensures truth { IfOk result (λ id. HasTruth self.new id) }
        ensures means { IfOk result (λ id. Means self.new (λ _ v. v id ≡ as_number (int_le (pos 0) (v number)))) }
    {
        let span = self.range(number);
        if span.lo >= 0 {
            return Ok(self.fixed(true));
        }
        if span.hi < 0 {
            return Ok(self.fixed(false));
        }
        self.append(Part::Pos(number), Span::truth())
    }

    /// The atom where it stands, else appended with this range, and then the number that is once the atom.
    pub(crate) fn number(&mut self, atom: Part<'_>, span: Span) -> Result<u32, FoldFault>
        requires fits { Fits self.old span (formula atom) }
        requires term { is_term (formula atom) ≡ true }
        requires aid { HasAid self.old (size self.old) (formula atom) }
        ensures before { IsFold self.old }
        ensures made { Follows (rule.number_of span (formula atom.entry) self.old) result self.new }
        ensures kept { Keeps self.old self.new }
        ensures number { IfOk result (λ id. HasNumber self.new id) }
    {
        let atom = self.append(atom, span)?;
        let span = self.range(atom);
        let once = [Term {
            factor: 1,
            node: atom,
        }];
        self.append(Part::Lin(0, &once), span)
    }

    /// The number without terms. `Wide` is a constant that passes 10^17 in size.
    #[tactic(auto, unfolding(crate::specs::Rules::constant))]
    pub fn constant(&mut self, value: i64) -> Result<u32, FoldFault>
        ensures made { Follows (rule.constant value self.old) result self.new }
        ensures kept { Keeps self.old self.new }
        ensures number { IfOk result (λ id. HasNumber self.new id) }
        ensures means { IfOk result (λ id. Means self.new (λ _ v. v id ≡ value)) }
    {
        if value.unsigned_abs() > MOST {
            return Err(FoldFault::Wide(i128::from(value)));
        }
        let span = Span {
            lo: value,
            hi: value,
        };
        self.append(Part::Lin(value, &[]), span)
    }

    /// The number of a column, which lies in the range. The range is not empty, lies within 10^17 in size,
    /// and is the same at each call for one column.
    #[tactic(auto, unfolding(crate::specs::Rules::cell))]
    pub fn cell(&mut self, column: u32, range: Span) -> Result<u32, FoldFault>
        requires order { range.lo ≤ℤ range.hi }
        requires small_lo { unsigned_abs range.lo ≤ 100000000000000000 }
        requires small_hi { unsigned_abs range.hi ≤ 100000000000000000 }
        ensures made { Follows (rule.cell column range self.old) result self.new }
        ensures kept { Keeps self.old self.new }
        ensures number { IfOk result (λ id. HasNumber self.new id) }
        ensures means { IfOk result (λ id. Means self.new (λ world v. IsThere world column range → v id ≡ number_at world column)) }
    {
        if range.lo == range.hi {
            return self.constant(range.lo);
        }
        self.number(Part::Cell(column), range)
    }

    /// The constant and the terms of a number.
    pub(crate) fn linear(&self, number: u32) -> (i64, &'a [Term])
        requires { HasNumber self.now number }
        ensures node { node self.now number ≡ LinNode result.0 result.1.now }
        ensures small { unsigned_abs result.0 ≤ 100000000000000000 }
    {
        match self.prov.node(number) {
            Part::Lin(constant, terms) => (constant, terms),
            _ => unreachable!(),
        }
    }

    /// Whether a truth does not hold.
    #[tactic(auto, unfolding(crate::specs::Rules::not_of))]
    pub fn not(&mut self, truth: u32) -> Result<u32, FoldFault>
        requires { HasTruth self.old truth }
        ensures made { Follows (rule.not_of truth self.old) result self.new }
        ensures kept { Keeps self.old self.new }
        ensures truth { IfOk result (λ id. HasTruth self.new id) }
        ensures means { IfOk result (λ id. Means self.new (λ _ v. holds v id ≡ not (holds v truth))) }
    {
        match self.prov.node(truth) {
            Part::False => Ok(self.fixed(true)),
            Part::True => Ok(self.fixed(false)),
            Part::Not(kid) => Ok(kid),
            _ => self.append(Part::Not(truth), Span::truth()),
        }
    }

    /// A number by a name of its own, where it has two terms or more.
    #[tactic(auto, unfolding(crate::specs::Rules::tot))]
    pub fn tot(&mut self, number: u32) -> Result<u32, FoldFault>
        requires { HasNumber self.old number }
        ensures made { Follows (rule.tot number self.old) result self.new }
        ensures kept { Keeps self.old self.new }
        ensures number { IfOk result (λ id. HasNumber self.new id) }
        ensures means { IfOk result (λ id. Means self.new (λ _ v. v id ≡ v number)) }
    {
        let (_, terms) = self.linear(number);
        if terms.len() < 2 {
            return Ok(number);
        }
        let span = self.range(number);
        self.number(Part::Tot(number), span)
    }
}

//! The making calls of the list of formulas as steps of a walk.

ghost use Rattle.std.specs.Prelude.{◌≡◌, ◌≢◌, ◌≤◌, ◌<◌, ◌+ℤ◌, ◌*ℤ◌, ◌^◌, ◌≤ℤ◌, All, IfOk, unsigned_abs, pos, neg_ℤ, not, int_le, int_lt, if◌then◌else◌};
ghost use Rattle.std.specs.List.{list_all, list_any};
ghost use Rattle.prov_fold.specs.Folds.{IsFold};
ghost use Rattle.prov_fold.specs.Graphs.{HasNumber, HasTruth, HasSummand, Keeps};
ghost use Rattle.prov_fold.specs.Rules as rule;
ghost use Rattle.prov_fold.specs.Sums.{added_by, total_by};
ghost use Rattle.prov_fold.specs.Values.{as_number, holds, number_at, IsThere};
ghost use Rattle.sym_rows.specs.Hypos.{IsPresence};
ghost use Rattle.sym_rows.specs.Walks.{Makes, by_rule, lifted, truth_of};

use crate::fault::WalkFault;
use prov_fold::{Fold, FoldFault, Scaled, Span};

/// Nothing is done: by this call the contract of its caller learns what holds of every list of formulas.
pub fn known(fold: &Fold<'_>)
    ensures { IsFold fold.now }
{
    let _len = fold.prov().len();
    let _span = fold.range(0);
}

/// The place of True where it holds, else of False. Nothing is made.
pub fn truth(fold: &Fold<'_>, holds: bool) -> u32
    ensures place { result ≡ truth_of holds }
    ensures truth { HasTruth fold.now result }
    ensures fold { IsFold fold.now }
{
    known(fold);
    if holds { 1 } else { 0 }
}

/// What a call of the fold came to.
fn lifted(made: Result<u32, FoldFault>) -> Result<u32, WalkFault>
    ensures { result ≡ lifted made }
{
    Ok(made?)
}

/// The number that is this value. It is `Wide` where the value passes 10^17 in size, and `Full` where the list is full
/// (docs/FORMULAS.md, "Fold rules").
pub fn constant(fold: &mut Fold<'_>, value: i64) -> Result<u32, WalkFault>
    ensures { Makes (by_rule (rule.constant value) fold.old) HasNumber (λ id _ v. v id ≡ value) fold.old result fold.new }
{
    lifted(fold.constant(value))
}

/// The truth that a world column's number is 1. It is `Full` where the list is full (docs/FORMULAS.md, "Fold rules").
pub fn pres(fold: &mut Fold<'_>, column: u32) -> Result<u32, WalkFault>
    ensures { Makes (by_rule (rule.pres column) fold.old) IsPresence (λ id numbers v. v id ≡ number_at numbers column) fold.old result fold.new }
{
    known(fold);
    let made = fold.pres(column);
    known(fold);
    lifted(made)
}

/// The number of a world column, which lies in the range. The range is not empty, and its ends do not pass 10^17 in size. It is `Full`
/// where the list is full (docs/FORMULAS.md, "Fold rules").
pub fn cell(fold: &mut Fold<'_>, column: u32, range: Span) -> Result<u32, WalkFault>
    requires order { range.lo ≤ℤ range.hi }
    requires small_lo { unsigned_abs range.lo ≤ 100000000000000000 }
    requires small_hi { unsigned_abs range.hi ≤ 100000000000000000 }
    ensures { Makes (by_rule (rule.cell column range) fold.old) HasNumber (λ id numbers v. IsThere numbers column range → v id ≡ number_at numbers column) fold.old result fold.new }
{
    lifted(fold.cell(column, range))
}

/// The constant plus each part's factor times the part. The constant and all factors together do not pass 10^18 in size. It is `Wide`
/// where the sum's constant or an end of its range passes 10^17 in size, and `Full` where the list is full (docs/FORMULAS.md, "Fold rules").
pub fn sum(fold: &mut Fold<'_>, constant: i64, parts: &[Scaled]) -> Result<u32, WalkFault>
    requires parts { All (λ part. HasSummand fold.old part.number) parts.now }
    requires factors { added_by (λ part. unsigned_abs part.factor) parts.now ≤ 10 ^ 18 }
    requires small { unsigned_abs constant ≤ 10 ^ 18 }
    ensures { Makes (by_rule (rule.sum constant parts.now) fold.old) HasNumber (λ id _ v. v id ≡ constant +ℤ total_by (λ part. part.factor *ℤ v part.number) parts.now) fold.old result fold.new }
{
    lifted(fold.sum(constant, parts))
}

/// The truth that a number is 0 or above. It is `Full` where the list is full (docs/FORMULAS.md, "Fold rules").
pub fn pos(fold: &mut Fold<'_>, number: u32) -> Result<u32, WalkFault>
    requires { HasNumber fold.old number }
    ensures { Makes (by_rule (rule.pos_of number) fold.old) HasTruth (λ id _ v. v id ≡ as_number (int_le (pos 0) (v number))) fold.old result fold.new }
{
    lifted(fold.pos(number))
}

/// The truth that another does not hold. It is `Full` where the list is full (docs/FORMULAS.md, "Fold rules").
pub fn not(fold: &mut Fold<'_>, truth: u32) -> Result<u32, WalkFault>
    requires { HasTruth fold.old truth }
    ensures { Makes (by_rule (rule.not_of truth) fold.old) HasTruth (λ id _ v. holds v id ≡ not (holds v truth)) fold.old result fold.new }
{
    lifted(fold.not(truth))
}

/// The truth that all of these hold. It is `Full` where the list is full (docs/FORMULAS.md, "Fold rules").
pub fn and(fold: &mut Fold<'_>, kids: &[u32]) -> Result<u32, WalkFault>
    requires { All (λ kid. HasTruth fold.old kid) kids.now }
    ensures { Makes (by_rule (rule.and_of kids.now) fold.old) HasTruth (λ id _ v. holds v id ≡ list_all (holds v) kids.now) fold.old result fold.new }
{
    lifted(fold.and(kids))
}

/// The truth that one of these holds. It is `Full` where the list is full (docs/FORMULAS.md, "Fold rules").
pub fn or(fold: &mut Fold<'_>, kids: &[u32]) -> Result<u32, WalkFault>
    requires { All (λ kid. HasTruth fold.old kid) kids.now }
    ensures { Makes (by_rule (rule.or_of kids.now) fold.old) HasTruth (λ id _ v. holds v id ≡ list_any (holds v) kids.now) fold.old result fold.new }
{
    lifted(fold.or(kids))
}

/// The size of a number. It is `Full` where the list is full (docs/FORMULAS.md, "Fold rules").
pub fn abs(fold: &mut Fold<'_>, number: u32) -> Result<u32, WalkFault>
    requires { HasNumber fold.old number }
    ensures { Makes (by_rule (rule.abs number) fold.old) HasNumber (λ id _ v. v id ≡ (if int_lt (v number) (pos 0) then neg_ℤ (v number) else v number)) fold.old result fold.new }
{
    lifted(fold.abs(number))
}

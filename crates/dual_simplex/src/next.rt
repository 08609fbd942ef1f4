//! What the rule does at a dictionary: it ends, in one of three ways, or goes on by a pivot.
ghost use Rattle.std.specs.Prelude.{◌≡◌, ◌^◌, ◌<◌, ◌≤◌, ℤ, pos, ◌-ℤ◌, unsigned_abs, IfSome, MatchBool};
ghost use Rattle.rat128.specs.Rationals.{whole, ◌<ℚ◌};
ghost use Rattle.dict_pivot.specs.Dictionaries.{least_of, table, IsDictionary};
ghost use Rattle.dual_simplex.specs.Path.{IsPast};
ghost use Rattle.dual_simplex.specs.Choice.{IsStep, IsMended, IsAbove};

use crate::entering::entering;
use crate::violated::first_violated;
use dict_pivot::Dict;
use rat128::Rat;
use std::cmp::Ordering;

/// Where a pivot is made. Rows and columns are counted from 0 (docs/SOLVER.md).
#[derive(Clone, Copy, Debug, PartialEq, Eq)]
pub struct PivotAt {
    pub row: u32,
    pub column: u32,
}

/// What the rule does at a dictionary.
#[derive(Clone, Copy)]
pub(crate) enum Step {
    // The aim's constant is past the best value.
    Past,
    // No row is violated.
    Solved,
    // The first violated row has no column with a positive factor.
    Stuck(u32),
    Pivot(PivotAt),
}

/// What the rule does: the ends are tried in this order.
pub(crate) fn next(dict: &Dict, best: Option<i128>) -> Step
    requires dictionary { IsDictionary dict.now }
    requires best { IfSome best (λ (b : ℤ). unsigned_abs b ≤ 2 ^ 126) }
    ensures { IsStep (least_of dict.now.low) best (table dict.now) result }
{
    if is_past(dict, best) {
        return Step::Past;
    }
    match first_violated(dict) {
        None => Step::Solved,
        Some(row) => mend(dict, row),
    }
}

/// What the rule does about a violated row.
fn mend(dict: &Dict, row: u32) -> Step
    requires { row < dict.now.height }
    ensures { IsMended (table dict.now) row result }
{
    match entering(dict, row) {
        None => Step::Stuck(row),
        Some(column) => Step::Pivot(PivotAt { row, column }),
    }
}

/// Whether a best value is there, and the aim's constant is above it less 1.
fn is_past(dict: &Dict, best: Option<i128>) -> bool
    requires dictionary { IsDictionary dict.now }
    requires best { IfSome best (λ (b : ℤ). unsigned_abs b ≤ 2 ^ 126) }
    ensures { MatchBool result (IsPast best (table dict.now)) (IsPast best (table dict.now) → ⊥) }
{
    match best {
        None => false,
        Some(best) => is_above(&dict.cell(0, 0), best),
    }
}

/// Whether a fraction is above a whole number less 1.
pub(crate) fn is_above(fraction: &Rat, number: i128) -> bool
    requires { unsigned_abs number ≤ 2 ^ 126 }
    ensures { IsAbove fraction.now number result }
{
    match Rat::new(one_less(number), 1) {
        None => false,
        Some(less) => match less.order(fraction) {
            Ordering::Less => true,
            Ordering::Equal => false,
            Ordering::Greater => false,
        },
    }
}

/// The number less 1.
fn one_less(number: i128) -> i128
    requires { unsigned_abs number ≤ 2 ^ 126 }
    ensures { result ≡ number -ℤ pos 1 }
{
    number - 1
}

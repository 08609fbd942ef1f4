//! The first row whose quantity is below the least that it may be.
ghost use Rattle.std.specs.Prelude.{◌≡◌, ℕ, ◌<◌, ◌≤◌, MatchOption, MatchBool};
ghost use Rattle.rat128.specs.Rationals.{◌<ℚ◌, ◌≤ℚ◌};
ghost use Rattle.dict_pivot.specs.Dictionaries.{least_of, table};
ghost use Rattle.dual_simplex.specs.Path.{FirstViolated, NoneViolated};

use dict_pivot::Dict;
use std::cmp::Ordering;

/// The first row, the objective's aside, whose constant is below the least that its quantity may be.
pub(crate) fn first_violated(dict: &Dict) -> Option<u32>
    ensures { MatchOption result (NoneViolated (least_of dict.now.low) (table dict.now)) (λ row. FirstViolated (least_of dict.now.low) (table dict.now) row) }
{
    for row in 1..dict.height() {
        if is_violated(dict, row) {
            return Some(row);
        }
    }
    None
}

/// Whether a row's constant is below the least that its quantity may be. The comparison is exact.
fn is_violated(dict: &Dict, row: u32) -> bool
    requires { row < dict.now.height }
    ensures { MatchBool result ((table dict.now).cell row 0 <ℚ least_of dict.now.low row) (least_of dict.now.low row ≤ℚ (table dict.now).cell row 0) }
{
    let least = dict.least(row);
    match dict.cell(row, 0).order(&least) {
        Ordering::Less => true,
        Ordering::Equal => false,
        Ordering::Greater => false,
    }
}

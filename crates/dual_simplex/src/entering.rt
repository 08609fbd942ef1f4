//! The column that enters: the least, in lexicographic order, after division by its factor in the row.
ghost use Rattle.std.specs.Prelude.{◌≡◌, ◌≢◌, ℕ, ◌+◌, ◌<◌, ◌≤◌, MatchBool, MatchOption};
ghost use Rattle.rat128.specs.Rationals.{zero_ℚ, order_ℚ, ◌<ℚ◌, ◌≤ℚ◌};
ghost use Rattle.dict_pivot.specs.Tables.{IsColumn};
ghost use Rattle.dict_pivot.specs.Dictionaries.{table};
ghost use Rattle.dual_simplex.specs.Path.{divided, Enters, NoneEnters};
ghost use Rattle.dual_simplex.specs.Compared.{Compares, IsLeastBelow, IsLeastSoFar};

use dict_pivot::Dict;
use rat128::order_quotients;
use std::cmp::Ordering;

/// The first of the least columns with a positive factor in the row.
pub(crate) fn entering(dict: &Dict, row: u32) -> Option<u32>
    requires { row < dict.now.height }
    ensures { MatchOption result (NoneEnters (table dict.now) row) (λ column. Enters (table dict.now) row column) }
{
    let mut least = None;
    for column in 1..dict.width() {
        least = lesser(dict, row, least, column);
    }
    least
}

/// The lesser of the least column so far and one more.
fn lesser(dict: &Dict, row: u32, least: Option<u32>, column: u32) -> Option<u32>
    requires row { row < dict.now.height }
    requires some { 0 < column }
    requires column { column < dict.now.width }
    requires so_far { IsLeastSoFar (table dict.now) row column least }
    ensures { IsLeastSoFar (table dict.now) row (column + 1) result }
{
    if has_positive(dict, row, column) {
        match least {
            None => Some(column),
            Some(before) => Some(lesser_of(dict, row, before, column)),
        }
    } else {
        least
    }
}

/// The lesser of two columns, the first of them where they are the same.
fn lesser_of(dict: &Dict, row: u32, before: u32, column: u32) -> u32
    requires row { row < dict.now.height }
    requires column { column < dict.now.width }
    requires positive { zero_ℚ <ℚ (table dict.now).cell row column }
    requires least { IsLeastBelow (table dict.now) row column before }
    ensures { IsLeastBelow (table dict.now) row (column + 1) result }
{
    match order_columns(dict, row, column, before) {
        Ordering::Less => column,
        Ordering::Equal => before,
        Ordering::Greater => before,
    }
}

/// Whether a column's factor in the row is positive.
fn has_positive(dict: &Dict, row: u32, column: u32) -> bool
    requires row { row < dict.now.height }
    requires column { column < dict.now.width }
    ensures { MatchBool result (zero_ℚ <ℚ (table dict.now).cell row column) ((table dict.now).cell row column ≤ℚ zero_ℚ) }
{
    dict.cell(row, column).num() > 0
}

/// How two columns compare, row by row, each divided by its factor in the row. The comparison is exact.
fn order_columns(dict: &Dict, row: u32, one: u32, other: u32) -> Ordering
    requires row { row < dict.now.height }
    requires one { one < dict.now.width }
    requires other { other < dict.now.width }
    requires one_positive { zero_ℚ <ℚ (table dict.now).cell row one }
    requires other_positive { zero_ℚ <ℚ (table dict.now).cell row other }
    ensures { Compares dict.now.height (divided (table dict.now) row one) (divided (table dict.now) row other) result }
{
    for i in 0..dict.height() {
        match order_at(dict, row, one, other, i) {
            Ordering::Less => return Ordering::Less,
            Ordering::Greater => return Ordering::Greater,
            Ordering::Equal => {}
        }
    }
    Ordering::Equal
}

/// How two columns compare in row i; two zeros at once.
fn order_at(dict: &Dict, row: u32, one: u32, other: u32, i: u32) -> Ordering
    requires row { row < dict.now.height }
    requires one { one < dict.now.width }
    requires other { other < dict.now.width }
    requires one_positive { zero_ℚ <ℚ (table dict.now).cell row one }
    requires other_positive { zero_ℚ <ℚ (table dict.now).cell row other }
    requires i { i < dict.now.height }
    ensures { result ≡ order_ℚ (divided (table dict.now) row one i) (divided (table dict.now) row other i) }
{
    let above = dict.cell(i, one);
    let other_above = dict.cell(i, other);
    if above.num() == 0 {
        if other_above.num() == 0 {
            return Ordering::Equal;
        }
    }
    order_quotients(
        &above,
        &dict.cell(row, one),
        &other_above,
        &dict.cell(row, other),
    )
}

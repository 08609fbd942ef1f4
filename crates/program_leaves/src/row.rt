//! Rows that cannot hold, since no column of theirs has two values.
ghost use Rattle.std.specs.Prelude.{◌≡◌, ◌<◌, ◌↔◌, ◌*ℤ◌, ◌≤◌, ◌^◌, length, All, IsTrue, MatchOption, not};
ghost use Rattle.std.specs.List.{list_all};
ghost use Rattle.ip_rows.specs.Programs.{IsMeasured, IsWellFormed, number_at, sum_at};
ghost use Rattle.ip_rows.specs.Rows.{AreTerms, IsMeasuredRow};
ghost use Rattle.ip_rows.specs.Sums.{IsBounded};
ghost use Rattle.branch_tree.specs.Listing.{lows};
ghost use Rattle.program_leaves.specs.Leaves as spec;

use crate::part::is_open;
use ip_rows::{Bounds, Coef, IpRow, Program};

/// The first false row: a row that has no column with two values and fails. Rows are counted from 0 (docs/REDUCTION.md).
pub fn false_row(program: &Program) -> Option<u32>
    requires formed { IsWellFormed program.now }
    requires measured { IsMeasured program.now }
    ensures { MatchOption result (spec.HasNoFalseRow program.now) (λ row. spec.IsFirstFalseRow program.now row) }
{
    for row in 0..program.rows.len() as u32 {
        if is_false_row(program, row) {
            return Some(row);
        }
    }
    None
}

/// Whether the row of this number is there and is a false one (docs/REDUCTION.md).
pub fn is_false_row(program: &Program, row: u32) -> bool
    requires formed { IsWellFormed program.now }
    requires measured { IsMeasured program.now }
    ensures told { result ≡ spec.is_false_row program.now row }
    ensures false_row { IsTrue result ↔ spec.IsFalseRow program.now row }
{
    fails_at(program, row)
}

/// Whether the row of this number is there, has no column with two values, and fails.
fn fails_at(program: &Program, row: u32) -> bool
    requires formed { IsWellFormed program.now }
    requires measured { IsMeasured program.now }
    ensures { result ≡ spec.is_false_row program.now row }
{
    let rows = program.rows.as_slice();
    let place = row as usize;
    place < rows.len() && fails_fixed(program, &rows[place])
}

/// Whether a row has no column with two values, and fails.
fn fails_fixed(program: &Program, row: &IpRow) -> bool
    requires formed { AreTerms (length program.now.columns) row.now.terms }
    requires bounded { IsBounded (lows (spec.root_of program.now)) row.now.terms }
    ensures { result ≡ spec.fails_fixed program.now row.now }
{
    are_fixed(program, row.terms.as_slice())
        && least_total(program, row.terms.as_slice()) < i128::from(row.least)
}

/// Whether no term's column has two values.
fn are_fixed(program: &Program, terms: &[Coef]) -> bool
    requires { All (λ term. term.column < length program.now.columns) terms.now }
    ensures { result ≡ list_all (λ term. not (spec.is_open program.now term)) terms.now }
{
    for term in terms {
        if is_open(program, term.column) {
            return false;
        }
    }
    true
}

/// What terms come to at the lower sides.
fn least_total(program: &Program, terms: &[Coef]) -> i128
    requires bounded { IsBounded (lows (spec.root_of program.now)) terms.now }
    ensures { result ≡ sum_at (lows (spec.root_of program.now)) terms.now }
{
    let mut sum = 0;
    for term in terms {
        sum += least_part(program, term);
    }
    sum
}

/// What one term comes to at the lower side of its column.
fn least_part(program: &Program, term: &Coef) -> i128
    requires { term.now.column < length program.now.columns }
    ensures { result ≡ term.now.factor *ℤ number_at (lows (spec.root_of program.now)) term.now.column }
{
    i128::from(term.factor) * i128::from(low_of(program, term.column))
}

/// The lower side of a column.
fn low_of(program: &Program, column: u32) -> i64
    requires { column < length program.now.columns }
    ensures { result ≡ number_at (lows (spec.root_of program.now)) column }
{
    lower(&program.columns.as_slice()[column as usize].sides)
}

/// The lower one of two sides.
fn lower(side: &Bounds) -> i64
    ensures { result ≡ side.now.lo }
{
    side.lo
}

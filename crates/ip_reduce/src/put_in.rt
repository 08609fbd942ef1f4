//! Rows with the fixed columns put in, and the least that they come to.
ghost use Rattle.std.specs.Prelude.{◌≡◌, ◌<◌, ◌≤◌, ◌^◌, ◌*ℤ◌, ◌-ℤ◌, ◌<ℤ◌, ◌↔◌, pos, if◌then◌else◌, not, length, unsigned_abs, FitsSigned, IfOk, IsTrue};
ghost use Rattle.std.specs.Int.{w64};
ghost use Rattle.ip_rows.specs.Rows.{side_at};
ghost use Rattle.ip_rows.specs.Programs.{sides_of, is_fixed, fixed_sum};
ghost use Rattle.ip_reduce.specs.Rows.{open_terms, put_in, fixed_part, least_part, least_sum, IsLight};

use base_kit::{List, Memory};
use ip_rows::{Bounds, Coef, IpColumn, IpRow};
use std::alloc::Global;

/// The sides of a column.
fn side_of(columns: &[IpColumn], column: u32) -> Bounds
    requires { column < length columns.now }
    ensures { result ≡ side_at (sides_of columns.now) column }
{
    columns[column as usize].sides
}

/// Whether a column is not fixed.
pub(crate) fn is_open(columns: &[IpColumn], column: u32) -> bool
    requires { column < length columns.now }
    ensures { result ≡ not (is_fixed (sides_of columns.now) column) }
{
    let side = side_of(columns, column);
    side.lo != side.hi
}

/// A row with the fixed columns put in.
pub(crate) fn put_in(alloc: Global, columns: &[IpColumn], row: &IpRow) -> Result<IpRow, Memory>
    requires light { IsLight (sides_of columns.now) row.now.terms }
    requires fits { FitsSigned w64 (row.now.least -ℤ fixed_sum (sides_of columns.now) row.now.terms) }
    ensures { IfOk result (λ made. made ≡ put_in (sides_of columns.now) row.now) }
{
    let terms = row.terms.as_slice();
    let least = i128::from(row.least) - fixed_total(columns, terms);
    Ok(IpRow {
        terms: open_terms(alloc, columns, terms)?,
        least: least as i64,
    })
}

/// The terms at columns that are not fixed.
fn open_terms(alloc: Global, columns: &[IpColumn], terms: &[Coef]) -> Result<List<Coef>, Memory>
    requires { IsLight (sides_of columns.now) terms.now }
    ensures { IfOk result (λ made. made ≡ open_terms (sides_of columns.now) terms.now) }
{
    let mut made = List::from_vec(Vec::with_capacity(alloc, terms.len())?);
    for term in terms {
        if is_open(columns, term.column) {
            made.push(*term)?;
        }
    }
    Ok(made)
}

/// What the terms at fixed columns come to.
fn fixed_total(columns: &[IpColumn], terms: &[Coef]) -> i128
    requires { IsLight (sides_of columns.now) terms.now }
    ensures total { result ≡ fixed_sum (sides_of columns.now) terms.now }
    ensures small { unsigned_abs result ≤ 2 ^ 120 }
{
    let mut sum = 0;
    for term in terms {
        sum += part_if_fixed(columns, term);
    }
    sum
}

/// What a term comes to, if its column is fixed, else 0.
fn part_if_fixed(columns: &[IpColumn], term: &Coef) -> i128
    requires { term.now.column < length columns.now }
    ensures { result ≡ fixed_part (sides_of columns.now) term.now }
{
    let side = side_of(columns, term.column);
    if side.lo == side.hi {
        product(term.factor, side.lo)
    } else {
        0
    }
}

/// Whether some point within the sides fails a row.
pub(crate) fn asks(columns: &[IpColumn], row: &IpRow) -> bool
    requires { IsLight (sides_of columns.now) row.now.terms }
    ensures { IsTrue result ↔ (least_sum (sides_of columns.now) row.now.terms <ℤ row.now.least) }
{
    least_total(columns, row.terms.as_slice()) < i128::from(row.least)
}

/// The least that terms come to within the sides.
fn least_total(columns: &[IpColumn], terms: &[Coef]) -> i128
    requires { IsLight (sides_of columns.now) terms.now }
    ensures { result ≡ least_sum (sides_of columns.now) terms.now }
{
    let mut sum = 0;
    for term in terms {
        sum += least_of(columns, term);
    }
    sum
}

/// The least that a term comes to within the sides.
fn least_of(columns: &[IpColumn], term: &Coef) -> i128
    requires { term.now.column < length columns.now }
    ensures { result ≡ least_part (sides_of columns.now) term.now }
{
    let side = side_of(columns, term.column);
    if term.factor < 0 {
        product(term.factor, side.hi)
    } else {
        product(term.factor, side.lo)
    }
}

/// The product of two numbers.
fn product(factor: i64, number: i64) -> i128
    ensures { result ≡ factor *ℤ number }
{
    i128::from(factor) * i128::from(number)
}

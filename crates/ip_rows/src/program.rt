//! Whole-number programs, and what their points come to.
ghost use Rattle.std.specs.Prelude.{◌≡◌, ◌+◌, ◌<◌, ◌≤◌, ◌^◌, ◌+ℤ◌, ◌*ℤ◌, ◌↔◌, ℤ, length, unsigned_abs, All, IsTrue, MatchOption};
ghost use Rattle.ip_rows.specs.Programs.{IsWellFormed, IsMeasured, IsBetween, Holds, IsFirstBroken, sides_of, number_at, sum_at};
ghost use Rattle.ip_rows.specs.Sums.{IsBounded};

use crate::{Bounds, Coef, IpRow};
use base_kit::{Duplicate, List, Memory};
use std::alloc::Global;

/// What a column stands for (docs/REDUCTION.md).
#[derive(Clone, Copy, Debug, PartialEq, Eq)]
pub enum ColumnKind {
    /// A choice of the query.
    World,
    /// A truth, which is 0 or 1.
    Switch,
    /// A number that follows from the others.
    Value,
}

/// A column: what it stands for, and the least and the greatest number that it may have.
#[derive(Clone, Copy, Debug, PartialEq, Eq)]
pub struct IpColumn {
    pub kind: ColumnKind,
    pub sides: Bounds,
}

/// A program over whole numbers: a number is wanted for each column, within its sides, so that every row holds and
/// `constant` plus the aim is least. Rows and columns are counted from 0 (docs/REDUCTION.md).
#[derive(Debug, Drop)]
pub struct Program {
    pub columns: List<IpColumn>,
    pub rows: List<IpRow>,
    pub aim: List<Coef>,
    pub constant: i64,
}

impl Program {
    /// The first row that fails at a point, or `None` where every row holds. The point has one number for each column,
    /// within its sides.
    pub fn meets(&self, point: &[i64]) -> Option<u32>
        requires formed { IsWellFormed self.now }
        requires measured { IsMeasured self.now }
        requires between { IsBetween (sides_of self.now.columns) point.now }
        ensures { MatchOption result (All (Holds point.now) self.now.rows) (IsFirstBroken point.now self.now.rows) }
    {
        first_broken(self.rows.as_slice(), point)
    }

    /// The constant plus what the aim comes to at a point, which has one number for each column, within its sides.
    pub fn value(&self, point: &[i64]) -> i128
        requires formed { IsWellFormed self.now }
        requires measured { IsMeasured self.now }
        requires between { IsBetween (sides_of self.now.columns) point.now }
        ensures { result ≡ self.now.constant +ℤ sum_at point.now self.now.aim }
    {
        i128::from(self.constant) + total(self.aim.as_slice(), point)
    }
}

/// The number of the first of the rows that does not hold at a point.
fn first_broken(rows: &[IpRow], point: &[i64]) -> Option<u32>
    requires few { length rows.now < 2 ^ 32 }
    requires bounded { All (λ (row : IpRow). IsBounded point.now row.terms) rows.now }
    ensures { MatchOption result (All (Holds point.now) rows.now) (IsFirstBroken point.now rows.now) }
{
    for (number, row) in rows.iter().enumerate() {
        if !holds(row, point) {
            return Some(number as u32);
        }
    }
    None
}

/// Whether a row holds at a point.
fn holds(row: &IpRow, point: &[i64]) -> bool
    requires { IsBounded point.now row.now.terms }
    ensures { IsTrue result ↔ Holds point.now row.now }
{
    i128::from(row.least) <= total(row.terms.as_slice(), point)
}

/// What terms come to at a point.
fn total(terms: &[Coef], point: &[i64]) -> i128
    requires { IsBounded point.now terms.now }
    ensures total { result ≡ sum_at point.now terms.now }
    ensures small { unsigned_abs result ≤ 2 ^ 120 }
{
    let mut sum = 0;
    for term in terms {
        sum += part(term, point);
    }
    sum
}

/// What one term comes to at a point.
fn part(term: &Coef, point: &[i64]) -> i128
    requires { term.now.column < length point.now }
    ensures { result ≡ term.now.factor *ℤ number_at point.now term.now.column }
{
    i128::from(term.factor) * i128::from(point[term.column as usize])
}

impl Duplicate for IpColumn {
    fn copy(&self, _alloc: Global) -> Result<IpColumn, Memory> {
        Ok(*self)
    }
}

impl Duplicate for Program {
    fn copy(&self, alloc: Global) -> Result<Program, Memory> {
        Ok(Program {
            columns: List::from_slice(alloc, self.columns.as_slice())?,
            rows: self.rows.copy(alloc)?,
            aim: List::from_slice(alloc, self.aim.as_slice())?,
            constant: self.constant,
        })
    }
}

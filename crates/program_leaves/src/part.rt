//! The one part of a program: the columns with two values.
ghost use Rattle.std.specs.Prelude.{◌≡◌, ◌<◌, ◌^◌, ◌*ℤ◌, pos, length, IfOk, MatchOption, if◌then◌else◌};
ghost use Rattle.ip_rows.specs.Programs.{IsBetween, IsMeasured, IsWellFormed, number_at, sides_of};
ghost use Rattle.ip_rows.specs.Rows.{side_at};
ghost use Rattle.ip_rows.specs.Sums.{IsBounded};
ghost use Rattle.branch_tree.specs.Listing as listing;
ghost use Rattle.program_leaves.specs.Leaves as spec;

use base_kit::{List, Memory};
use ip_rows::{Bounds, Coef, Program};
use std::alloc::Global;

/// How many columns have two values, and how many rows there are.
#[derive(Clone, Copy, Debug, PartialEq, Eq)]
pub struct PartSize {
    pub columns: u32,
    pub rows: u32,
}

/// The sides of all columns of a program (docs/REDUCTION.md).
pub fn root_sides(alloc: Global, program: &Program) -> Result<List<Bounds>, Memory>
    ensures { IfOk result (λ sides. sides ≡ spec.root_of program.now) }
{
    let mut sides = List::new(alloc);
    for column in program.columns.as_slice() {
        sides.push(column.sides)?;
    }
    Ok(sides)
}

/// The numbers of the columns with two values, rising, counted from 0 (docs/REDUCTION.md).
pub fn part_columns(alloc: Global, program: &Program) -> Result<List<u32>, Memory>
    requires { IsMeasured program.now }
    ensures { IfOk result (λ columns. columns ≡ spec.part_columns program.now) }
{
    let root = root_sides(alloc, program)?;
    unfixed(alloc, root.as_slice())
}

/// The numbers of the sides with two values, rising.
#[tactic(auto, unfolding(branch_tree::specs::Listing::open_from))]
fn unfixed(alloc: Global, sides: &[Bounds]) -> Result<List<u32>, Memory>
    requires { length sides.now < 2 ^ 32 }
    ensures { IfOk result (λ columns. columns ≡ listing.open_columns sides.now) }
{
    let mut columns = List::new(alloc);
    for (column, side) in sides.iter().enumerate() {
        if side.lo < side.hi {
            columns.push(column as u32)?;
        }
    }
    Ok(columns)
}

/// The size of the part, where it is too large to be worked: more than 1,024 columns with two values or more than 4,096
/// rows. Where no column has two values there is no part. `columns` are those of `part_columns` (docs/ANSWERS.md).
pub fn too_large(program: &Program, columns: &[u32]) -> Option<PartSize>
    requires measured { IsMeasured program.now }
    requires shown { columns.now ≡ spec.part_columns program.now }
    ensures large { MatchOption result (¬ spec.IsTooLarge program.now) (λ _. spec.IsTooLarge program.now) }
    ensures size { MatchOption result (Unit {0}) (λ size. spec.IsSizeOf program.now size) }
{
    let rows = program.rows.len();
    let is_large = columns.len() > 1024 || rows > 4096;
    if columns.is_empty() || !is_large {
        return None;
    }
    Some(PartSize {
        columns: columns.len() as u32,
        rows: rows as u32,
    })
}

/// What the part's aim comes to at a point within the program's sides. The constant and the terms at columns with one value
/// are left out (docs/BOUNDS.md).
pub fn part_value(program: &Program, point: &[i64]) -> i128
    requires formed { IsWellFormed program.now }
    requires measured { IsMeasured program.now }
    requires between { IsBetween (sides_of program.now.columns) point.now }
    ensures { result ≡ spec.part_value program.now point.now }
{
    open_total(program, program.aim.as_slice(), point)
}

/// What terms come to at a point, with those at columns with one value left out.
fn open_total(program: &Program, terms: &[Coef], point: &[i64]) -> i128
    requires bounded { IsBounded point.now terms.now }
    requires count { length point.now ≡ length program.now.columns }
    ensures { result ≡ spec.open_sum program.now point.now terms.now }
{
    let mut sum = 0;
    for term in terms {
        sum += open_part(program, term, point);
    }
    sum
}

/// What one term comes to at a point: nothing where its column has one value.
fn open_part(program: &Program, term: &Coef, point: &[i64]) -> i128
    requires there { term.now.column < length point.now }
    requires count { length point.now ≡ length program.now.columns }
    ensures { result ≡ (if spec.is_open program.now term.now then term.now.factor *ℤ number_at point.now term.now.column else pos 0) }
{
    if is_open(program, term.column) {
        i128::from(term.factor) * i128::from(point[term.column as usize])
    } else {
        0
    }
}

/// Whether the column of this number has two values.
pub(crate) fn is_open(program: &Program, column: u32) -> bool
    requires { column < length program.now.columns }
    ensures { result ≡ listing.has_two (side_at (spec.root_of program.now) column) }
{
    has_two(&program.columns.as_slice()[column as usize].sides)
}

/// Whether a column has two values.
pub(crate) fn has_two(side: &Bounds) -> bool
    ensures { result ≡ listing.has_two side.now }
{
    side.lo < side.hi
}

//! The number of the objective.

ghost use Rattle.std.specs.Prelude.{All};
ghost use Rattle.prov_fold.specs.Graphs.{HasNumber};
ghost use Rattle.sym_rows.specs.Cells.{AreRowsOf, IsRowOf};
ghost use Rattle.sym_rows.specs.Walks.{Makes};
ghost use Rattle.sym_values.specs.Steps as steps;
ghost use Rattle.sym_goals.specs.Goals as spec;
ghost use Rattle.sym_goals.specs.Meant.{IsAimOf};
ghost use Rattle.sym_goals.specs.Shares as shares;

use crate::guarding::guard;
use prov_fold::{Fold, Scaled};
use std::alloc::Global;
use sym_rows::{SymRow, WalkFault, sum};
use sym_values::number;
use tiql_query::{Column, Expr};

/// The most rows of a relation; no memory holds more.
const MOST_ROWS: u64 = 1_000_000_000_000_000_000;

/// The number of the objective: the sum of an expression over a relation with these columns and possible rows (docs/FORMULAS.md, "The
/// walk"). On every world, for every later list, it is the sum of the expression over the rows that are there, where the rows fit the
/// columns and the expression has a kind. The errors are those of the first call that is refused: `Wide` for a value, a partial product,
/// or the constant or an end of the range of a sum that passes 10^17 in size, `Full` where there are 20,000,000 formulas, and `Memory`.
/// What was appended before stays.
pub fn aim_of(
    alloc: Global,
    fold: &mut Fold<'_>,
    columns: &[Column],
    rows: &[SymRow],
    part: &Expr,
) -> Result<u32, WalkFault>
    requires { AreRowsOf fold.old rows.now }
    ensures { Makes (spec.aim_of columns.now part.now rows.now fold.old) HasNumber (IsAimOf columns.now part.now rows.now) fold.old result fold.new }
{
    let made = shares_of(alloc, fold, columns, rows, part)?;
    total(fold, made.as_slice())
}

/// The sum of what the rows bring, of which no memory holds more than 10^18.
fn total(fold: &mut Fold<'_>, made: &[Scaled]) -> Result<u32, WalkFault>
    requires { All (steps.IsPart fold.old) made.now }
    ensures { Makes (spec.total_of made.now fold.old) HasNumber (steps.IsSumMade made.now) fold.old result fold.new }
{
    if made.len() as u64 > MOST_ROWS {
        return Err(WalkFault::Memory);
    }
    sum(fold, 0, made)
}

/// What each row brings, in turn.
fn shares_of(
    alloc: Global,
    fold: &mut Fold<'_>,
    columns: &[Column],
    rows: &[SymRow],
    part: &Expr,
) -> Result<Vec<Scaled>, WalkFault>
    requires { AreRowsOf fold.old rows.now }
    ensures { shares.MakesShares columns.now part.now rows.now fold.old result fold.new }
{
    let mut made = Vec::new(alloc);
    for row in rows {
        made.push(share_of(alloc, fold, columns, row, part)?)?;
    }
    Ok(made)
}

/// What a row brings: its number where it is there, as a part of a sum.
fn share_of(
    alloc: Global,
    fold: &mut Fold<'_>,
    columns: &[Column],
    row: &SymRow,
    part: &Expr,
) -> Result<Scaled, WalkFault>
    requires { IsRowOf fold.old row.now }
    ensures { Makes (spec.share_of columns.now part.now row.now fold.old) steps.IsPart (shares.IsShareOf columns.now part.now row.now) fold.old result fold.new }
{
    let value = number(alloc, fold, &[columns], &[row], part)?;
    let share = guard(fold, row.presence, value)?;
    Ok(Scaled {
        factor: 1,
        number: share,
    })
}

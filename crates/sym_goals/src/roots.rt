//! The truths that a requirement asks to hold.

ghost use Rattle.std.specs.Prelude.{◌≡◌, All, not};
ghost use Rattle.prov_fold.specs.Graphs.{HasTruth};
ghost use Rattle.prov_fold.specs.Rules as rule;
ghost use Rattle.prov_fold.specs.Values.{holds};
ghost use Rattle.sym_rows.specs.Cells.{AreRowsOf, IsRowOf};
ghost use Rattle.sym_rows.specs.Walks.{Makes, by_rule};
ghost use Rattle.sym_goals.specs.Goals as spec;
ghost use Rattle.sym_goals.specs.Meant.{AreRootsOf};
ghost use Rattle.sym_goals.specs.Parts as single;

use base_kit::List;
use prov_fold::Fold;
use std::alloc::Global;
use sym_rows::{SymRow, WalkFault, and, not, or};
use sym_values::condition;
use tiql_query::{Column, Cond, Require};

/// The truths that a requirement asks to hold of a relation with these columns and possible rows, in the order in which they are made
/// (docs/FORMULAS.md, "The walk"). On every world, for every later list, all of them hold exactly where the rows that are there meet the
/// requirement, where the rows fit the columns and the condition is fit for them. The errors are those of the first call that is refused:
/// `Wide` for a value, a partial product, or the constant or an end of the range of a sum that passes 10^17 in size, `Full` where there
/// are 20,000,000 formulas, and `Memory`. What was appended before stays.
pub fn roots_of(
    alloc: Global,
    fold: &mut Fold<'_>,
    columns: &[Column],
    rows: &[SymRow],
    need: &Require,
) -> Result<List<u32>, WalkFault>
    requires { AreRowsOf fold.old rows.now }
    ensures { Makes (spec.roots_of columns.now need.now rows.now fold.old) (λ g made. All (HasTruth g) made) (AreRootsOf columns.now need.now rows.now) fold.old result fold.new }
{
    let parts = parts_of(alloc, fold, columns, rows, need)?;
    roots_from(alloc, fold, need, parts)
}

/// The roots that are asked for, by what the requirement asks of each row.
fn roots_from(
    alloc: Global,
    fold: &mut Fold<'_>,
    need: &Require,
    parts: List<u32>,
) -> Result<List<u32>, WalkFault>
    requires { All (HasTruth fold.old) parts }
    ensures { Makes (spec.roots_from need.now parts fold.old) (λ g made. All (HasTruth g) made) (single.AreFrom need.now parts) fold.old result fold.new }
{
    match need {
        Require::All(_, _) => Ok(parts),
        Require::Some(_, _) => one_of(alloc, fold, parts.as_slice()),
        Require::None(_) => Ok(parts),
    }
}

/// One root: that one of these holds.
fn one_of(alloc: Global, fold: &mut Fold<'_>, parts: &[u32]) -> Result<List<u32>, WalkFault>
    requires { All (HasTruth fold.old) parts.now }
    ensures { Makes (spec.one_of parts.now fold.old) (λ g made. All (HasTruth g) made) (single.IsOneOf parts.now) fold.old result fold.new }
{
    let root = or(fold, parts)?;
    let mut roots = List::new(alloc);
    roots.push(root)?;
    Ok(roots)
}

/// What a requirement asks of each row, in turn.
fn parts_of(
    alloc: Global,
    fold: &mut Fold<'_>,
    columns: &[Column],
    rows: &[SymRow],
    need: &Require,
) -> Result<List<u32>, WalkFault>
    requires { AreRowsOf fold.old rows.now }
    ensures { Makes (spec.parts_of columns.now need.now rows.now fold.old) (λ g made. All (HasTruth g) made) (single.ArePartsOf columns.now need.now rows.now) fold.old result fold.new }
{
    let mut made = List::new(alloc);
    for row in rows {
        made.push(part_of(alloc, fold, columns, row, need)?)?;
    }
    Ok(made)
}

/// What a requirement asks of a row.
fn part_of(
    alloc: Global,
    fold: &mut Fold<'_>,
    columns: &[Column],
    row: &SymRow,
    need: &Require,
) -> Result<u32, WalkFault>
    requires { IsRowOf fold.old row.now }
    ensures { Makes (spec.part_of columns.now need.now row.now fold.old) HasTruth (single.IsPartOf columns.now need.now row.now) fold.old result fold.new }
{
    match need {
        Require::All(_, test) => absent_or(alloc, fold, columns, row, test),
        Require::Some(_, test) => there_and(alloc, fold, columns, row, test),
        Require::None(_) => absent(fold, row),
    }
}

/// That a row is not there, or meets a condition. The condition is made first.
fn absent_or(
    alloc: Global,
    fold: &mut Fold<'_>,
    columns: &[Column],
    row: &SymRow,
    test: &Cond,
) -> Result<u32, WalkFault>
    requires { IsRowOf fold.old row.now }
    ensures { Makes (spec.absent_or columns.now test.now row.now fold.old) HasTruth (single.IsAbsentOr columns.now test.now row.now) fold.old result fold.new }
{
    let met = condition(alloc, fold, &[columns], &[row], test)?;
    let gone = absent(fold, row)?;
    or(fold, &[gone, met])
}

/// That a row is there and meets a condition. The condition is made first.
fn there_and(
    alloc: Global,
    fold: &mut Fold<'_>,
    columns: &[Column],
    row: &SymRow,
    test: &Cond,
) -> Result<u32, WalkFault>
    requires { IsRowOf fold.old row.now }
    ensures { Makes (spec.there_and columns.now test.now row.now fold.old) HasTruth (single.IsThereAnd columns.now test.now row.now) fold.old result fold.new }
{
    let met = condition(alloc, fold, &[columns], &[row], test)?;
    and(fold, &[row.presence, met])
}

/// That a row is not there.
fn absent(fold: &mut Fold<'_>, row: &SymRow) -> Result<u32, WalkFault>
    requires { HasTruth fold.old row.now.presence }
    ensures { Makes (spec.absent row.now fold.old) HasTruth (single.IsAbsent row.now) fold.old result fold.new }
{
    not(fold, row.presence)
}

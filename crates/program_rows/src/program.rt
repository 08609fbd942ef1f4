//! The program of a list of formulas.
ghost use Rattle.std.specs.Prelude.{◌≡◌, ◌<◌, ◌^◌, neg_ℤ, unsigned_abs, length, All, IfOk, IfSome};
ghost use Rattle.ip_rows.specs.Programs.{IsMeasured, IsWellFormed};
ghost use Rattle.prov_fold.specs.Folds.{IsFold};
ghost use Rattle.prov_fold.specs.Graphs.{HasNumber, HasTruth};
ghost use Rattle.world_points.specs.Points.{root};
ghost use Rattle.whole_points.specs.Matched.{IsMatched};
ghost use Rattle.used_columns.specs.Laid.{HasChoices};
ghost use Rattle.program_rows.specs.Programs.{ComesTo};
ghost use Rattle.program_rows.specs.Worlds.{AreLed, IsRanged};

use crate::goal::aim_form;
use crate::linear::forms_of;
use crate::rows::{all_rows, row_of};
use crate::sow::seeds_of;
use crate::{Goal, ProgramFault};
use bool_encode::ColumnMap;
use drop_rows::cell_rows;
use ip_rows::{IpRow, Program};
use prov_fold::Fold;
use std::alloc::Global;
use tiql_query::WorldColumn;
use used_columns::{columns_for, used};
use world_points::sides_of;

/// A program, and what each of its columns stands for (docs/ENCODING.md).
#[derive(Debug, Drop)]
pub struct Encoded {
    pub program: Program,
    pub map: ColumnMap,
}

/// The program that asks that the roots hold, which are truths of the list, and in which a number of the list, the aim, is to be small or great.
/// The world columns are those of the list's presences and cells. Its columns are the world's and those of the nodes that the roots
/// and the aim use; its rows are those of cells that may be dropped, then those of the used nodes in rising order, then those of the
/// roots. `TooManyColumns` is that there would be more than 100,000 columns, and `TooLarge` that rows and their terms would be more than
/// 50,000,000 together (docs/ENCODING.md).
pub fn program_of(
    alloc: Global,
    fold: &Fold<'_>,
    columns: &[WorldColumn],
    roots: &[u32],
    aim: Option<Goal>,
) -> Result<Encoded, ProgramFault>
    requires few { length columns.now < 4294967296 }
    requires ranged { All IsRanged columns.now }
    requires led { AreLed columns.now }
    requires choices { HasChoices fold.now (root columns.now) }
    requires roots { All (HasTruth fold.now) roots.now }
    requires aim { IfSome aim (λ goal. HasNumber fold.now goal.number) }
    ensures made { ComesTo columns.now fold.now roots.now aim result }
    ensures matched { IfOk result (λ made. IsMatched made.program fold.now made.map.stands) }
    ensures formed { IfOk result (λ made. IsWellFormed made.program) }
    ensures measured { IfOk result (λ made. IsMeasured made.program) }
{
    known(fold);
    let forms = forms_of(alloc, fold, roots)?;
    let aim = aim_form(alloc, fold, aim)?;
    let seeds = seeds_of(alloc, fold, forms.as_slice(), &aim)?;
    let marks = used(alloc, fold, seeds.as_slice())?;
    let sides = sides_of(alloc, columns)?;
    let layout = columns_for(alloc, fold, sides.as_slice(), marks.as_slice())?;
    let cells = cell_rows(alloc, columns)?;
    let rows = all_rows(
        alloc,
        fold,
        &layout.map,
        marks.as_slice(),
        forms.as_slice(),
        cells,
    )?;
    let aim_row = row_of(alloc, fold, &layout.map, &aim)?;
    let constant = constant_of(&aim_row);
    Ok(Encoded {
        program: Program {
            columns: layout.columns,
            rows,
            aim: aim_row.terms,
            constant,
        },
        map: layout.map,
    })
}

/// The constant of the aim, which its row has on the other side.
fn constant_of(row: &IpRow) -> i64
    requires { unsigned_abs row.now.least < 2 ^ 63 }
    ensures { result ≡ neg_ℤ row.now.least }
{
    -row.least
}

/// What holds of every list is known where its formulas and ranges are read.
fn known(fold: &Fold<'_>)
    ensures { IsFold fold.now }
{
    let _count = fold.prov().len();
    let _range = fold.range(0);
}

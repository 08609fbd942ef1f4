//! The tables of the views in a world.

ghost use Rattle.std.specs.Prelude.{◌≡◌, ◌++◌, ◌<◌, Some, All, length, slice_get, OnOk};
ghost use Rattle.tiql_query.specs.WellFormed.{IsWellFormed};
ghost use Rattle.world_def.specs.Judging.{IsSmallWorld};
ghost use Rattle.world_eval.specs.Evaluating as spec;
ghost use Rattle.world_eval.specs.Lines as lines;

use crate::lines::put_view;
use base_kit::{List, Memory, Row};
use std::alloc::Global;
use tables_csv::table_text;
use tiql_query::{QView, Query, Source};
use world_def::{EvalFault, Tables, World, view_rows};

/// The line and the table of each view of a query, in order.
pub(crate) fn views_text(
    alloc: Global,
    query: &Query,
    tables: &Tables,
    world: &World,
) -> Result<Vec<u8>, EvalFault>
    requires fit { IsWellFormed query.now }
    requires small { IsSmallWorld tables.now world.now }
    requires views { length query.now.views < 4294967295 }
    ensures { spec.Puts (spec.views_told query.now tables.now world.now 0 query.now.views) result }
{
    let mut text = Vec::new(alloc);
    for (at, view) in query.views.as_slice().iter().enumerate() {
        put_asked(alloc, query, tables, world, at as u32, view, &mut text)?;
    }
    Ok(text)
}

/// Appends the line and the table of the view with this number.
#[tactic(auto, unfolding(crate::specs::Evaluating::view_told))]
fn put_asked(
    alloc: Global,
    query: &Query,
    tables: &Tables,
    world: &World,
    number: u32,
    view: &QView,
    text: &mut Vec<u8>,
) -> Result<(), EvalFault>
    requires fit { IsWellFormed query.now }
    requires small { IsSmallWorld tables.now world.now }
    requires there { slice_get query.now.views number ≡ Some view.now }
    ensures { spec.Adds (spec.view_told query.now tables.now world.now number view.now) text.old.items text.new.items result }
{
    let rows = view_rows(alloc, query, tables, world, Source::View(number))?;
    put_rows(alloc, view, &rows, text)?;
    Ok(())
}

/// Appends the line of a view with these rows, and then its table.
#[tactic(auto, unfolding(crate::specs::Lines::view_text))]
fn put_rows(alloc: Global, view: &QView, rows: &List<Row>, text: &mut Vec<u8>) -> Result<(), Memory>
    requires { All (λ row. length row ≡ length view.now.columns) rows.now }
    ensures { OnOk result (text.new.items ≡ text.old.items ++ lines.view_text view.now rows.now) }
{
    let bytes = table_text(alloc, &view.columns, rows)?;
    put_view(alloc, &view.name, rows.len(), bytes.as_slice(), text)
}

//! The possible rows of all relations of a query.

ghost use Rattle.std.specs.Prelude.{◌≡◌, ◌<◌, [], Ok, length, map, IfOk};
ghost use Rattle.tiql_query.specs.WellFormed.{IsWellFormed};
ghost use Rattle.tiql_query.specs.Rows.{AreTables};
ghost use Rattle.world_def.specs.Columns.{IsSmall, columns_of};
ghost use Rattle.sym_rows.specs.Cells as cells;
ghost use Rattle.sym_query.specs.Relations.{AreHypos, AreHyposOf, AreKnown, AreKnownOf, AreViewsOf};
ghost use Rattle.sym_query.specs.Walks as spec;
ghost use Rattle.sym_query.specs.Walks.{Makes};

use crate::fault::{QueryFault, told_of};
use base_kit::{List, Memory};
use prov_fold::Fold;
use std::alloc::Global;
use sym_rows::{Known, SymRow, hypo_rows, known as list_is_fold, table_rows};
use tiql_query::{Query, Source, WorldColumn};
use view_agg::view_sym;
use world_def::Tables;

/// The possible rows of all relations of a query: of the tables, then of the hypothetical tables, then of the views, each in
/// declared order.
pub(crate) fn known_rows(
    alloc: Global,
    fold: &mut Fold<'_>,
    query: &Query,
    tables: &Tables,
    columns: &List<WorldColumn>,
) -> Result<Known, QueryFault>
    requires fit { IsWellFormed query.now }
    requires tables { AreTables query.now tables.now }
    requires small { IsSmall query.now tables.now }
    requires views { length query.now.views < 4294967296 }
    requires columns { columns_of query.now tables.now ≡ Ok columns.now }
    ensures { Makes (spec.known_walk query.now tables.now columns.now fold.old) (AreKnown query.now) (AreKnownOf query.now tables.now columns.now) fold.old result fold.new }
{
    let sure = tables_known(alloc, tables)?;
    let hypos = hypos_known(alloc, fold, query, tables, columns)?;
    // True stands in the list, as the presence of the tables' rows.
    list_is_fold(fold);
    let before = Known {
        tables: sure,
        hypos,
        views: List::new(alloc),
    };
    with_views(alloc, fold, query, before)
}

/// Those of the tables.
fn tables_known(alloc: Global, tables: &Tables) -> Result<List<List<SymRow>>, Memory>
    ensures { IfOk result (λ made. made ≡ map (map cells.sure_row) tables.now) }
{
    let mut made = List::new(alloc);
    for rows in tables.as_slice() {
        made.push(table_rows(alloc, rows)?)?;
    }
    Ok(made)
}

/// Those of the hypothetical tables.
fn hypos_known(
    alloc: Global,
    fold: &mut Fold<'_>,
    query: &Query,
    tables: &Tables,
    columns: &List<WorldColumn>,
) -> Result<List<List<SymRow>>, QueryFault>
    requires fit { IsWellFormed query.now }
    requires tables { AreTables query.now tables.now }
    requires small { IsSmall query.now tables.now }
    requires columns { columns_of query.now tables.now ≡ Ok columns.now }
    ensures { Makes (spec.hypos_walk query.now tables.now columns.now fold.old) (AreHypos query.now) (AreHyposOf query.now tables.now columns.now) fold.old result fold.new }
{
    let mut made = List::new(alloc);
    for hypo in 0..query.hypos.len() as u32 {
        let rows = hypo_rows(alloc, fold, query, tables, columns, hypo);
        made.push(told_of(Source::Hypo(hypo), rows)?)?;
    }
    Ok(made)
}

/// With those of the views, each over the relations before it.
fn with_views(
    alloc: Global,
    fold: &mut Fold<'_>,
    query: &Query,
    before: Known,
) -> Result<Known, QueryFault>
    requires fit { IsWellFormed query.now }
    requires views { length query.now.views < 4294967296 }
    requires none { before.views ≡ [] }
    requires known { AreKnown query.now fold.old before }
    ensures { Makes (spec.views_walk query.now before fold.old) (AreKnown query.now) (AreViewsOf query.now before) fold.old result fold.new }
{
    let mut known = before;
    for view in 0..query.views.len() as u32 {
        let rows = view_sym(alloc, fold, query, view, &known);
        known.views.push(told_of(Source::View(view), rows)?)?;
    }
    Ok(known)
}

//! All rows of a program, as far as they are not too many.
ghost use Rattle.std.specs.Prelude.{◌≡◌, ◌+◌, ◌<◌, ◌≤◌, ◌++◌, ◌∷◌, [], true, length, All, IfOk};
ghost use Rattle.prov_fold.specs.Graphs.{size};
ghost use Rattle.bool_encode.specs.Stands.{IsMap};
ghost use Rattle.bool_encode.specs.Rows.{IsJoinedOn, IsRowOf};
ghost use Rattle.root_encode.specs.Roots.{AreJoinedOn};
ghost use Rattle.used_columns.specs.Used.{mark_at};
ghost use Rattle.program_rows.specs.Fair.{told, told_all, IsFair};
ghost use Rattle.program_rows.specs.Goals.{marked_forms, node_forms};
ghost use Rattle.program_rows.specs.Gathering.{AddsRows, Gathers, GathersAll, HasNames};
ghost use Rattle.program_rows.specs.Programs.{size_of_rows};

use crate::ProgramFault;
use crate::linear::LinearForm;
use crate::nodes::node_rows;
use base_kit::{List, Memory};
use bool_encode::{ColumnMap, joined_row};
use ip_rows::IpRow;
use prov_fold::Fold;
use std::alloc::Global;

/// The rows of a program and their terms are at most so many together.
const MOST_SIZE: u64 = 50_000_000;

/// The rows of cells, and behind them those of marked nodes in rising order and of the roots' forms.
pub(crate) fn all_rows(
    alloc: Global,
    fold: &Fold<'_>,
    map: &ColumnMap,
    used: &[bool],
    forms: &[LinearForm],
    cells: List<IpRow>,
) -> Result<List<IpRow>, ProgramFault>
    requires map { IsMap map.now.stands }
    requires count { length used.now ≡ size fold.now }
    requires names { (z : _) → z < size fold.now → mark_at used.now z ≡ true → HasNames fold.now map.now.stands z }
    requires fair { All (IsFair fold.now) (told_all forms.now) }
    requires joined { AreJoinedOn fold.now map.now.stands (told_all forms.now) }
    ensures { GathersAll fold.now map.now.stands (node_forms fold.now used.now ++ told_all forms.now) cells result }
{
    let mut rows = List::new(alloc);
    let cells_total = add_rows(&mut rows, 0, cells)?;
    let nodes_total = add_nodes(alloc, fold, map, used, &mut rows, cells_total)?;
    let _total = add_forms(alloc, fold, map, forms, &mut rows, nodes_total)?;
    Ok(rows)
}

/// Appends the rows of the marked nodes, in rising order.
fn add_nodes(
    alloc: Global,
    fold: &Fold<'_>,
    map: &ColumnMap,
    used: &[bool],
    rows: &mut List<IpRow>,
    mut total: u64,
) -> Result<u64, ProgramFault>
    requires map { IsMap map.now.stands }
    requires count { length used.now ≡ size fold.now }
    requires names { (z : _) → z < size fold.now → mark_at used.now z ≡ true → HasNames fold.now map.now.stands z }
    requires counted { total ≡ size_of_rows rows.old }
    requires small { total ≤ 50000000 }
    ensures { Gathers fold.now map.now.stands (node_forms fold.now used.now) rows.old rows.new result }
{
    for id in 0..fold.prov().len() {
        total = add_marked(alloc, fold, map, used, rows, total, id)?;
    }
    Ok(total)
}

/// Appends the rows of a node, if it is marked.
fn add_marked(
    alloc: Global,
    fold: &Fold<'_>,
    map: &ColumnMap,
    used: &[bool],
    rows: &mut List<IpRow>,
    total: u64,
    id: u32,
) -> Result<u64, ProgramFault>
    requires map { IsMap map.now.stands }
    requires there { id < size fold.now }
    requires count { length used.now ≡ size fold.now }
    requires names { mark_at used.now id ≡ true → HasNames fold.now map.now.stands id }
    requires counted { total ≡ size_of_rows rows.old }
    requires small { total ≤ 50000000 }
    ensures { Gathers fold.now map.now.stands (marked_forms fold.now used.now id) rows.old rows.new result }
{
    if !used[id as usize] {
        return Ok(total);
    }
    let more = node_rows(alloc, fold, map, id)?;
    add_rows(rows, total, more)
}

/// Appends a row for each form.
fn add_forms(
    alloc: Global,
    fold: &Fold<'_>,
    map: &ColumnMap,
    forms: &[LinearForm],
    rows: &mut List<IpRow>,
    mut total: u64,
) -> Result<u64, ProgramFault>
    requires map { IsMap map.now.stands }
    requires fair { All (IsFair fold.now) (told_all forms.now) }
    requires joined { AreJoinedOn fold.now map.now.stands (told_all forms.now) }
    requires counted { total ≡ size_of_rows rows.old }
    requires small { total ≤ 50000000 }
    ensures { Gathers fold.now map.now.stands (told_all forms.now) rows.old rows.new result }
{
    for form in forms {
        total = add_form(alloc, fold, map, form, rows, total)?;
    }
    Ok(total)
}

/// Appends the row of a form.
fn add_form(
    alloc: Global,
    fold: &Fold<'_>,
    map: &ColumnMap,
    form: &LinearForm,
    rows: &mut List<IpRow>,
    total: u64,
) -> Result<u64, ProgramFault>
    requires map { IsMap map.now.stands }
    requires fair { IsFair fold.now (told form.now) }
    requires joined { IsJoinedOn fold.now map.now.stands form.now.pieces }
    requires counted { total ≡ size_of_rows rows.old }
    requires small { total ≤ 50000000 }
    ensures { Gathers fold.now map.now.stands (told form.now ∷ []) rows.old rows.new result }
{
    let row = row_of(alloc, fold, map, form)?;
    let mut more = List::new(alloc);
    more.push(row)?;
    add_rows(rows, total, more)
}

/// The row of a form.
pub(crate) fn row_of(
    alloc: Global,
    fold: &Fold<'_>,
    map: &ColumnMap,
    form: &LinearForm,
) -> Result<IpRow, Memory>
    requires map { IsMap map.now.stands }
    requires fair { IsFair fold.now (told form.now) }
    requires joined { IsJoinedOn fold.now map.now.stands form.now.pieces }
    ensures row { IfOk result (λ row. IsRowOf fold.now map.now.stands (told form.now) row) }
{
    joined_row(alloc, fold, map, form.constant, form.pieces.as_slice())
}

/// Appends rows, and adds their size to the total; `TooLarge` is that there are too many with them.
fn add_rows(rows: &mut List<IpRow>, total: u64, more: List<IpRow>) -> Result<u64, ProgramFault>
    requires counted { total ≡ size_of_rows rows.old }
    requires small { total ≤ 50000000 }
    ensures { AddsRows more rows.old rows.new result }
{
    let total = added(total, size_of(more.as_slice())?)?;
    if total > MOST_SIZE {
        return Err(ProgramFault::TooLarge);
    }
    rows.append(more)?;
    Ok(total)
}

/// The rows and their terms, counted together.
fn size_of(rows: &[IpRow]) -> Result<u64, Memory>
    ensures { IfOk result (λ size. size ≡ size_of_rows rows.now) }
{
    let mut size = 0;
    for row in rows {
        size = added(added(size, 1)?, row.terms.len() as u64)?;
    }
    Ok(size)
}

/// No memory holds as many rows and terms as would make this fail.
fn added(size: u64, more: u64) -> Result<u64, Memory>
    ensures { IfOk result (λ sum. sum ≡ size + more) }
{
    size.checked_add(more).ok_or(Memory)
}

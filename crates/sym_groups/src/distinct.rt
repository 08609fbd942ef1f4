//! DISTINCT over possible rows.

ghost use Rattle.std.specs.Prelude.{◌≡◌, ◌++◌, map, All, IfOk, OnOk};
ghost use Rattle.std.specs.Option.{option_to_list};
ghost use Rattle.prov_fold.specs.Graphs.{HasTruth};
ghost use Rattle.prov_fold.specs.Values.{holds};
ghost use Rattle.sym_rows.specs.Cells.{AreRowsOf, cell_in};
ghost use Rattle.sym_rows.specs.Walks.{Makes};
ghost use Rattle.sym_groups.specs.Groups as spec;
ghost use Rattle.sym_groups.specs.Meanings as meaning;
ghost use Rattle.sym_groups.specs.Together.{lent_rows};

use crate::items::presences;
use crate::keys::all_values;
use crate::rows::together;
use base_kit::{Duplicate, List, Memory};
use prov_fold::Fold;
use std::alloc::{AllocError, Global};
use sym_rows::{Cell, SymRow, WalkFault, or};

/// The place of False in every list of formulas.
pub(crate) const FALSE: u32 = 0;

/// Each of the possible rows once, in rising order of values (docs/FORMULAS.md, "The walk"): a row is there where one of its equal rows
/// is, and its presence is the `or` of theirs in listed order. Its cells are those of the first of them. The values are the fixed ones and
/// the constants of numbers; where these are the same in every world, the rows that are there are the distinct ones of the rows that are
/// there. It is `Full` where the list of formulas is full, and `Memory` where memory is wanting; what was appended stays.
pub fn distinct_rows(
    alloc: Global,
    fold: &mut Fold<'_>,
    rows: &List<SymRow>,
) -> Result<List<SymRow>, WalkFault>
    requires { AreRowsOf fold.old rows.now }
    ensures { Makes (spec.distinct_rows rows.now fold.old) (meaning.AreDistinctOf rows.now) (meaning.AreDistinct fold.old rows.now) fold.old result fold.new }
{
    let keys = all_values(alloc, fold, rows.as_slice())?;
    let groups = together(alloc, keys.as_slice(), rows.as_slice())?;
    joined_rows(alloc, fold, groups.as_slice())
}

/// A row for each group of equal rows.
fn joined_rows(
    alloc: Global,
    fold: &mut Fold<'_>,
    groups: &[Vec<&SymRow>],
) -> Result<List<SymRow>, WalkFault>
    requires { All (AreRowsOf fold.old) (map lent_rows groups.now) }
    ensures { Makes (spec.rows_of spec.joined (map lent_rows groups.now) fold.old) AreRowsOf (meaning.AreRowsWhere meaning.some_there (λ group v. map (cell_in v) (spec.first_cells group)) (map lent_rows groups.now)) fold.old result fold.new }
{
    let mut made = List::new(alloc);
    for group in groups {
        let row = joined(alloc, fold, group.as_slice())?;
        add(&mut made, row)?;
    }
    Ok(made)
}

/// A row behind others, where there is one.
pub(crate) fn add(made: &mut List<SymRow>, row: Option<SymRow>) -> Result<(), AllocError>
    ensures { OnOk result (made.new ≡ made.old ++ option_to_list row) }
{
    match row {
        Some(row) => made.push(row),
        None => Ok(()),
    }
}

/// Equal rows as one; none where none of them can be there.
#[tactic(auto, unfolding(crate::specs::Groups::joined))]
fn joined(
    alloc: Global,
    fold: &mut Fold<'_>,
    group: &[&SymRow],
) -> Result<Option<SymRow>, WalkFault>
    requires { AreRowsOf fold.old (map (λ row. row.now) group.now) }
    ensures { Makes (spec.joined (map (λ row. row.now) group.now) fold.old) meaning.IsMaybeRowOf (meaning.IsRowWhere (meaning.some_there (map (λ row. row.now) group.now)) (λ v. map (cell_in v) (spec.first_cells (map (λ row. row.now) group.now)))) fold.old result fold.new }
{
    let presence = presence_of(alloc, fold, group)?;
    if presence == FALSE {
        return Ok(None);
    }
    let cells = first_cells(alloc, group)?;
    Ok(Some(SymRow { presence, cells }))
}

/// The truth that one of some rows is there.
pub(crate) fn presence_of(
    alloc: Global,
    fold: &mut Fold<'_>,
    group: &[&SymRow],
) -> Result<u32, WalkFault>
    requires { AreRowsOf fold.old (map (λ row. row.now) group.now) }
    ensures { Makes (spec.presence_of (map (λ row. row.now) group.now) fold.old) HasTruth (meaning.IsPresenceWhere (meaning.some_there (map (λ row. row.now) group.now))) fold.old result fold.new }
{
    let truths = presences(alloc, group)?;
    or(fold, truths.as_slice())
}

/// The cells of the first row.
fn first_cells(alloc: Global, group: &[&SymRow]) -> Result<List<Cell>, Memory>
    ensures { IfOk result (λ made. made ≡ spec.first_cells (map (λ row. row.now) group.now)) }
{
    match group {
        [] => Ok(List::new(alloc)),
        [row, ..] => row.cells.copy(alloc),
    }
}

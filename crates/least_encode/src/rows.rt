//! All rows of a Min.
ghost use Rattle.std.specs.Prelude.{◌≡◌, ◌<◌, ◌≤◌, ◌∷◌, ℕ, unsigned_abs, All, IfOk, true};
ghost use Rattle.prov_fold.specs.Folds.{IsFold};
ghost use Rattle.prov_fold.specs.Graphs.{node, range, size};
ghost use Rattle.bool_encode.specs.declared.form.Key.TheVariants as key;
ghost use Rattle.bool_encode.specs.Columns.{IsOnMap};
ghost use Rattle.bool_encode.specs.Points.{HasPairAt};
ghost use Rattle.bool_encode.specs.Rows.{AreRows, IsKid};
ghost use Rattle.bool_encode.specs.Stands.{IsMap};
ghost use Rattle.cmp_encode.specs.Spans.{narrow_span as narrow_of};
ghost use Rattle.cmp_encode.specs.Tables.{aid_of, forms_of, min_forms, named_by};
ghost use Rattle.least_encode.specs.Groups.{AreKidPairs};
ghost use Rattle.least_encode.specs.Told.{TellsLeast, is_least};

use crate::groups::{above_rows, below_rows, end_rows, present_rows, sum_rows};
use crate::narrow::narrow_span;
use base_kit::{List, Memory};
use bool_encode::ColumnMap;
use ip_rows::IpRow;
use prov_fold::{Fold, Pair, Part, Span};
use std::alloc::Global;

/// No map has a column for each of so many selectors.
const TOO_MANY_PAIRS: usize = 1 << 32;

/// The rows of a Min, in the order of its table. With the places right that they name and each selector 0 or 1, the rows hold
/// exactly where the node's column is right too and the selectors choose one pair that is there and has the least number, or
/// none where none is there. `some_pair` is the place of the `or` of the pairs' truths. The columns of these places, of the
/// node and of its selectors are on the map. `Err` is want of memory (docs/ENCODING.md).
pub fn least_rows(
    alloc: Global,
    fold: &Fold<'_>,
    map: &ColumnMap,
    id: u32,
    some_pair: u32,
) -> Result<List<IpRow>, Memory>
    requires map { IsMap map.now.stands }
    requires there { id < size fold.now }
    requires kind { is_least (node fold.now id) ≡ true }
    requires some_pair { some_pair ≡ aid_of fold.now (node fold.now id) }
    requires named { All (λ z. IsOnMap fold.now map.now.stands (key.Node z)) (id ∷ named_by fold.now (node fold.now id)) }
    requires chosen { (pair : ℕ) → HasPairAt pair (node fold.now id) → IsOnMap fold.now map.now.stands (key.Selector id pair) }
    ensures rows { IfOk result (λ rows. AreRows fold.now map.now.stands (forms_of fold.now id (node fold.now id)) rows) }
    ensures tells { IfOk result (λ rows. TellsLeast fold.now map.now.stands id rows) }
{
    let _range = fold.range(id);
    match fold.prov().node(id) {
        Part::Min(pairs) => rows_of(alloc, fold, map, pairs, some_pair, id),
        _ => unreachable!(),
    }
}

/// The same by the pairs.
fn rows_of(
    alloc: Global,
    fold: &Fold<'_>,
    map: &ColumnMap,
    pairs: &[Pair],
    some_pair: u32,
    id: u32,
) -> Result<List<IpRow>, Memory>
    requires map { IsMap map.now.stands }
    requires pairs { AreKidPairs fold.now map.now.stands id pairs.now }
    requires some_pair { IsKid fold.now map.now.stands 2 some_pair }
    requires node { IsKid fold.now map.now.stands 2 id }
    ensures { IfOk result (λ rows. AreRows fold.now map.now.stands (min_forms (range fold.now id) (narrow_of (range fold.now) pairs.now) (range fold.now) some_pair id pairs.now) rows) }
{
    if pairs.len() >= TOO_MANY_PAIRS {
        return Err(Memory);
    }
    let span = span(fold, id);
    let narrow = narrow_span(alloc, fold, pairs)?;
    let mut rows = List::new(alloc);
    present_rows(alloc, fold, map, &mut rows, pairs, id)?;
    sum_rows(alloc, fold, map, &mut rows, pairs, some_pair, id)?;
    above_rows(alloc, fold, map, &mut rows, span, pairs, id)?;
    below_rows(alloc, fold, map, &mut rows, span, pairs, id)?;
    end_rows(alloc, fold, map, &mut rows, narrow, some_pair, id)?;
    Ok(rows)
}

/// The range of a node, whose ends do not pass 10^17 in size.
fn span(fold: &Fold<'_>, id: u32) -> Span
    requires { id < size fold.now }
    ensures range { result ≡ range fold.now id }
    ensures small_lo { unsigned_abs result.lo ≤ 100000000000000000 }
    ensures small_hi { unsigned_abs result.hi ≤ 100000000000000000 }
    ensures fold { IsFold fold.now }
{
    fold.range(id)
}

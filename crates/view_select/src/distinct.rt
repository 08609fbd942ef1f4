//! Rows that are listed once.
ghost use Rattle.std.specs.Prelude.{◌≡◌, map, IfOk};
ghost use Rattle.view_select.specs.Selects as spec;

use base_kit::{List, Memory, Row, Value, copy_list};
use std::alloc::Global;
use std::collections::BTreeSet;

/// Each of the rows once, in rising order.
pub(crate) fn distinct_rows(alloc: Global, rows: &[Row]) -> Result<List<Row>, Memory>
    ensures { IfOk result (λ made. made ≡ spec.distinct rows.now) }
{
    let mut made = List::new(alloc);
    for row in lent_rows(alloc, rows)? {
        made.push(copy_list(alloc, row)?)?;
    }
    Ok(made)
}

/// Each of the rows once, as it lies there.
fn lent_rows<'a>(alloc: Global, rows: &'a [Row]) -> Result<BTreeSet<&'a [Value]>, Memory>
    ensures { IfOk result (λ set. map (λ row. row.now) set.keys ≡ spec.distinct rows.now) }
{
    let mut set = BTreeSet::new(alloc);
    for row in rows {
        set.insert(row.as_slice())?;
    }
    Ok(set)
}

//! The rows of two cells that may be dropped.

ghost use Rattle.std.specs.Prelude.{◌≡◌};

use drop_rows::cell_rows;
use ip_rows::{Coef, IpRow};
use std::test::Fail;
use tiql_query::WorldColumn;

/// A world column of a row that may be left out.
const fn column(row: u32, cell: Option<u32>, lo: i64, hi: i64) -> WorldColumn
    ensures { result.lo ≡ lo }
{
    WorldColumn {
        hypo: 0,
        row,
        cell,
        droppable: true,
        lo,
        hi,
    }
}

/// A factor of a column.
const fn term(factor: i64, column: u32) -> Coef {
    Coef { factor, column }
}

/// Whether a row asks that these terms are together 0 or above.
fn asks(row: &IpRow, terms: &[Coef]) -> bool {
    row.least == 0 && row.terms.as_slice() == terms
}

#[test]
fn each_cell_has_two_rows(rt: HostRuntime) -> Result<(), Fail> {
    let columns = [
        column(0, None, 0, 1),
        column(0, Some(1), 0, 5),
        column(1, None, 0, 1),
        column(1, Some(1), 2, 7),
    ];
    let rows = cell_rows(rt.alloc(), &columns)?;
    let [low, high, next_low, next_high] = rows.as_slice() else {
        return Err(Fail::from("four rows are wanted"));
    };
    assert!(rt; asks(low, &[term(1, 1)]));
    assert!(rt; asks(high, &[term(5, 0), term(-1, 1)]));
    assert!(rt; asks(next_low, &[term(-2, 2), term(1, 3)]));
    assert!(rt; asks(next_high, &[term(7, 2), term(-1, 3)]));
    Ok(())
}

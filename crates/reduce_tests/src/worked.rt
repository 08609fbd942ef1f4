//! A program whose kept rows have fixed columns, and whose false rows have terms.
ghost use Rattle.std.specs.Prelude.{◌≡◌, IfOk};
ghost use Rattle.ip_reduce.specs.Reductions.{IsReduced};
ghost use Rattle.reduce_tests.specs.Worked.{worked, term, row, column};

use base_kit::{List, Memory};
use ip_partition::{PartCols, parts};
use ip_reduce::{Reduced, reduce};
use ip_rows::{Bounds, Coef, ColumnKind, IpColumn, IpRow, Program};
use std::alloc::{AllocError, Global};
use std::test::Fail;

/// A factor of a column.
const fn term(factor: i64, column: u32) -> Coef
    ensures { result ≡ term factor column }
{
    Coef { factor, column }
}

/// A row of these terms.
fn row(alloc: Global, terms: &[Coef], least: i64) -> Result<IpRow, AllocError>
    ensures { IfOk result (λ made. made ≡ row terms.now least) }
{
    Ok(IpRow {
        terms: List::from_slice(alloc, terms)?,
        least,
    })
}

/// A column with these sides.
const fn column(lo: i64, hi: i64) -> IpColumn
    ensures { result ≡ column lo hi }
{
    IpColumn {
        kind: ColumnKind::World,
        sides: Bounds { lo, hi },
    }
}

/// Rows 0 and 3 are equal once column 1 is put in; 1 and 6 are false; 4 and 5 say nothing; 2 and 7 make a chain of three columns.
fn worked_rows(alloc: Global) -> Result<List<IpRow>, AllocError>
    ensures { IfOk result (λ rows. rows ≡ worked.rows) }
{
    let first = row(alloc, &[term(2, 0), term(1, 1)], 6)?;
    let wrong = row(alloc, &[term(1, 1), term(1, 4)], 6)?;
    let link = row(alloc, &[term(1, 2), term(1, 3), term(-1, 4)], 0)?;
    let again = row(alloc, &[term(2, 0)], 3)?;
    let idle = row(alloc, &[term(1, 0), term(1, 1)], 3)?;
    let empty = row(alloc, &[term(1, 4)], 2)?;
    let worse = row(alloc, &[term(1, 1)], 4)?;
    let next = row(alloc, &[term(1, 3), term(1, 6)], 1)?;
    Ok(List::from_vec(vec![in alloc; first, wrong, link, again, idle, empty, worse, next]?))
}

/// The worked program. Columns 1 and 4 are fixed, and column 5 is in no row.
fn worked(alloc: Global) -> Result<Program, AllocError>
    ensures { IfOk result (λ program. program ≡ worked) }
{
    let columns = [
        column(0, 5),
        column(3, 3),
        column(0, 1),
        column(0, 10),
        column(2, 2),
        column(0, 4),
        column(0, 1),
    ];
    Ok(Program {
        columns: List::from_slice(alloc, &columns)?,
        rows: worked_rows(alloc)?,
        aim: List::new(alloc),
        constant: 0,
    })
}

/// What is left of the worked program.
fn left(alloc: Global) -> Result<Reduced, Memory>
    ensures { IfOk result (IsReduced worked) }
{
    let program = worked(alloc)?;
    reduce(alloc, &program)
}

/// The parts of what is left.
fn split(alloc: Global, reduced: &Reduced) -> Result<List<PartCols>, Memory>
    requires { IsReduced worked reduced.now }
{
    parts(alloc, &reduced.grid, &reduced.columns)
}

#[test]
fn reduced(rt: HostRuntime) -> Result<(), Fail> {
    let reduced = left(rt.alloc())?;
    assert_eq!(rt; reduced.columns.as_slice(), [0, 2, 3, 5, 6].as_slice());
    assert_eq!(rt; reduced.full.as_slice(), [0, 2, 7].as_slice());
    assert_eq!(rt; reduced.false_row, Some(1));
    Ok(())
}

/// The terms and the least of each kept row.
const KEPT: [(&[Coef], i64); 3] = [
    (
        &[Coef {
            factor: 2,
            column: 0,
        }],
        3,
    ),
    (
        &[
            Coef {
                factor: 1,
                column: 2,
            },
            Coef {
                factor: 1,
                column: 3,
            },
        ],
        2,
    ),
    (
        &[
            Coef {
                factor: 1,
                column: 3,
            },
            Coef {
                factor: 1,
                column: 6,
            },
        ],
        1,
    ),
];

#[test]
fn kept_rows(rt: HostRuntime) -> Result<(), Fail> {
    let reduced = left(rt.alloc())?;
    assert_eq!(rt; reduced.rows.len(), KEPT.len());
    for (row, (terms, least)) in reduced.rows.as_slice().iter().zip(KEPT.iter()) {
        assert_eq!(rt; row.terms.as_slice(), *terms);
        assert_eq!(rt; row.least, *least);
    }
    Ok(())
}

/// The columns and the rows of each part.
const PARTS: [(&[u32], &[u32]); 3] = [(&[0], &[0]), (&[2, 3, 6], &[2, 7]), (&[5], &[])];

#[test]
fn parts_of_it(rt: HostRuntime) -> Result<(), Fail> {
    let reduced = left(rt.alloc())?;
    let split = split(rt.alloc(), &reduced)?;
    assert_eq!(rt; split.len(), PARTS.len());
    for (part, (columns, rows)) in split.as_slice().iter().zip(PARTS.iter()) {
        assert_eq!(rt; part.columns.as_slice(), *columns);
        assert_eq!(rt; part.rows.as_slice(), *rows);
    }
    Ok(())
}

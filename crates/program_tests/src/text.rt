//! The text of a small program.

use base_kit::List;
use bool_encode::{ColumnMap, Stand};
use bumpalo::Bump;
use ip_rows::{Bounds, Coef, ColumnKind, IpColumn, IpRow, Program};
use program_text::write_program;
use prov_fold::{Fold, Span};
use std::alloc::Global;
use std::test::Fail;

const TEXT: &str = "tiresias program 1\n\
    nodes 7\n\
    0 false\n\
    1 true\n\
    2 cell 0\n\
    3 lin 0 1*2\n\
    4 pres 1\n\
    5 guard 4 3\n\
    6 lin 0 1*5\n\
    columns 4\n\
    0 world 0 7\n\
    1 world 0 1\n\
    2 value 0 7 node 5\n\
    3 switch 0 1 node 5 pair 1\n\
    rows 1\n\
    0 >= 3 1*2\n\
    objective -1 -2*0\n\
    end\n";

fn column(kind: ColumnKind, hi: i64) -> IpColumn {
    IpColumn {
        kind,
        sides: Bounds { lo: 0, hi },
    }
}

fn program(alloc: Global) -> Result<Program, Fail> {
    let row = IpRow {
        terms: List::from_slice(
            alloc,
            &[Coef {
                factor: 1,
                column: 2,
            }],
        )?,
        least: 3,
    };
    let mut rows = List::new(alloc);
    rows.push(row)?;
    Ok(Program {
        columns: List::from_slice(
            alloc,
            &[
                column(ColumnKind::World, 7),
                column(ColumnKind::World, 1),
                column(ColumnKind::Value, 7),
                column(ColumnKind::Switch, 1),
            ],
        )?,
        rows,
        aim: List::from_slice(
            alloc,
            &[Coef {
                factor: -2,
                column: 0,
            }],
        )?,
        constant: -1,
    })
}

fn map(alloc: Global) -> Result<ColumnMap, Fail> {
    Ok(ColumnMap {
        stands: List::from_slice(
            alloc,
            &[
                Stand::World(0),
                Stand::World(1),
                Stand::Node(5),
                Stand::Selector { node: 5, pair: 0 },
            ],
        )?,
    })
}

#[test]
fn each_thing_has_its_line(rt: HostRuntime) -> Result<(), Fail> {
    let alloc = rt.alloc();
    let arena = Bump::new(alloc);
    let mut fold = Fold::start(alloc, &arena)?;
    let number = fold.cell(0, Span { lo: 0, hi: 7 })?;
    let truth = fold.pres(1)?;
    assert_eq!(rt; fold.guard(truth, number)?, 6);
    let text = write_program(alloc, &fold, &map(alloc)?, &program(alloc)?)?;
    assert_eq!(rt; text.as_slice(), TEXT.as_bytes());
    Ok(())
}

//! A row that is unlinked and linked again.

use cross_links::{Entry, Grid, GridWalk};
use std::alloc::{AllocError, Global};
use std::test::Fail;

const ENTRIES: [Entry; 4] = [
    Entry { row: 0, column: 0 },
    Entry { row: 0, column: 1 },
    Entry { row: 1, column: 1 },
    Entry { row: 1, column: 2 },
];

fn listed(alloc: Global, walk: GridWalk<'_>) -> Result<Vec<u32>, AllocError> {
    walk.collect(alloc)
}

#[test]
fn a_row_leaves_and_comes_back(rt: HostRuntime) -> Result<(), Fail> {
    let alloc = rt.alloc();
    let mut grid = Grid::build(alloc, 2, 3, &ENTRIES)?;
    grid.unlink_row(0);
    assert_eq!(rt; listed(alloc, grid.row(0))?.len(), 0);
    assert_eq!(rt; listed(alloc, grid.column(0))?.len(), 0);
    assert_eq!(rt; listed(alloc, grid.column(1))?.as_slice(), [1].as_slice());
    assert_eq!(rt; grid.relink_row(), Some(0));
    assert_eq!(rt; listed(alloc, grid.row(0))?.as_slice(), [0, 1].as_slice());
    assert_eq!(rt; listed(alloc, grid.row(1))?.as_slice(), [1, 2].as_slice());
    assert_eq!(rt; listed(alloc, grid.column(0))?.as_slice(), [0].as_slice());
    assert_eq!(rt;
        listed(alloc, grid.column(1))?.as_slice(),
        [0, 1].as_slice()
    );
    assert_eq!(rt; listed(alloc, grid.column(2))?.as_slice(), [1].as_slice());
    assert_eq!(rt; grid.relink_row(), None);
    Ok(())
}

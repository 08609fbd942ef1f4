//! How far the columns and the live rows of a grid reach.
ghost use Rattle.std.specs.Prelude.{◌≡◌, ℕ, ◌+◌, ◌<◌, ◌≤◌, ◌^◌, All, Contains};
ghost use Rattle.std.specs.List.Sorted.{IsStrictlyIncreasing};
ghost use Rattle.ip_partition.specs.Linked.{IsLive};

use cross_links::Grid;

/// One more than the greatest of some columns, or 0.
pub(crate) fn columns_end(columns: &[u32]) -> usize
    requires { IsStrictlyIncreasing columns.now }
    ensures beyond { (column : ℕ) → Contains columns.now column → column < result }
    ensures within { (end : ℕ) → All (λ column. column < end) columns.now → result ≤ end }
{
    match columns.last() {
        Some(last) => *last as usize + 1,
        None => 0,
    }
}

/// One more than the greatest live row of some columns, or 0.
pub(crate) fn rows_end(grid: &Grid, columns: &[u32]) -> usize
    requires { All (λ column. column < grid.now.columns) columns.now }
    ensures beyond { (row column : ℕ) → Contains columns.now column → IsLive grid.now row column → row < result }
    ensures within { result ≤ grid.now.rows }
    ensures small { result ≤ 2 ^ 32 }
{
    let mut end = 0;
    for column in columns {
        end = end.max(rows_end_of(grid, *column));
    }
    end
}

/// One more than the greatest live row of a column, or 0.
fn rows_end_of(grid: &Grid, column: u32) -> usize
    requires { column < grid.now.columns }
    ensures beyond { (row : ℕ) → IsLive grid.now row column → row < result }
    ensures within { result ≤ grid.now.rows }
    ensures small { result ≤ 2 ^ 32 }
{
    let mut end = 0;
    for row in grid.column(column) {
        end = end.max(row as usize + 1);
    }
    end
}

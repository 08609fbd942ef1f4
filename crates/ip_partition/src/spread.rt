//! Spreading a part from one column over all that are linked with it.
ghost use Rattle.std.specs.Prelude.{◌≡◌, ◌+◌, ◌<◌, ◌≤◌, [], length, ℕ, OnOk};
ghost use Rattle.ip_partition.specs.Linked.{IsLive};
ghost use Rattle.ip_partition.specs.Spreading.{HasRoom, IsSpread, SpreadsOn, SpreadsRow};

use base_kit::Memory;
use cross_links::Grid;

/// Spreads a part from the column at a place of `reached` on, over all columns that are linked with it.
pub(crate) fn spread(
    grid: &Grid,
    part: usize,
    from: usize,
    labels: &mut [usize],
    seen: &mut [bool],
    reached: &mut Vec<u32>,
) -> Result<(), Memory>
    requires room { HasRoom grid.now (length labels.old) (length seen.old) }
    requires some { 0 < part }
    requires within { from ≤ length reached.old.items }
    requires begun { IsSpread grid.now part from labels.old seen.old reached.old.items }
    ensures { OnOk result (SpreadsOn grid.now part (length reached.new.items) labels.old labels.new seen.new reached.new.items) }
{
    let mut at = from;
    while at < reached.len() {
        spread_column(grid, part, at, labels, seen, reached)?;
        at += 1;
    }
    Ok(())
}

/// Spreads a part over the rows of the column at a place of `reached`.
fn spread_column(
    grid: &Grid,
    part: usize,
    at: usize,
    labels: &mut [usize],
    seen: &mut [bool],
    reached: &mut Vec<u32>,
) -> Result<(), Memory>
    requires room { HasRoom grid.now (length labels.old) (length seen.old) }
    requires some { 0 < part }
    requires within { at < length reached.old.items }
    requires begun { IsSpread grid.now part at labels.old seen.old reached.old.items }
    ensures { OnOk result (SpreadsOn grid.now part (at + 1) labels.old labels.new seen.new reached.new.items) }
{
    let column = reached[at];
    for row in grid.column(column) {
        if !seen[row as usize] {
            spread_row(grid, part, row, labels, reached)?;
            seen[row as usize] = true;
        }
    }
    Ok(())
}

/// Gives the columns of a row that are in no part yet to a part.
fn spread_row(
    grid: &Grid,
    part: usize,
    row: u32,
    labels: &mut [usize],
    reached: &mut Vec<u32>,
) -> Result<(), Memory>
    requires within { row < grid.now.rows }
    requires some { 0 < part }
    requires room { (column : ℕ) → IsLive grid.now row column → column < length labels.old }
    ensures { OnOk result (SpreadsRow grid.now row part labels.old reached.old.items labels.new reached.new.items []) }
{
    for column in grid.row(row) {
        if labels[column as usize] == 0 {
            labels[column as usize] = part;
            reached.push(column)?;
        }
    }
    Ok(())
}

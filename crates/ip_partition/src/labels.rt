//! The part of each column, by a number.
ghost use Rattle.std.specs.Prelude.{◌≡◌, ◌-◌, ◌<◌, length, slice_set, All, IfOk, OnOk, replicate, false};
ghost use Rattle.ip_partition.specs.Spreading.{part_of, HasRoom, IsSpread, SpreadsOn, AreLabels};

use crate::spread::spread;
use base_kit::Memory;
use cross_links::Grid;
use std::alloc::Global;

/// The part of each column, counted from 1, or 0 where it is in none, and how many parts there are.
#[derive(Drop)]
pub(crate) struct Labels {
    pub(crate) parts: Vec<usize>,
    pub(crate) count: usize,
}

/// The parts of some columns, in the order of their first columns. The columns and the rows with them are below two ends.
pub(crate) fn label_columns(
    alloc: Global,
    grid: &Grid,
    columns: &[u32],
    columns_end: usize,
    rows_end: usize,
) -> Result<Labels, Memory>
    requires within { All (λ column. column < columns_end) columns.now }
    requires room { HasRoom grid.now columns_end rows_end }
    ensures { IfOk result (λ made. AreLabels grid.now columns.now made.count made.parts.items) }
{
    let mut parts = vec![in alloc; 0usize; columns_end]?;
    let mut seen = vec![in alloc; false; rows_end]?;
    let count = label_all(
        alloc,
        grid,
        columns,
        parts.as_mut_slice(),
        seen.as_mut_slice(),
    )?;
    Ok(Labels { parts, count })
}

/// Labels columns that have no label yet, and counts the parts.
fn label_all(
    alloc: Global,
    grid: &Grid,
    columns: &[u32],
    labels: &mut [usize],
    seen: &mut [bool],
) -> Result<usize, Memory>
    requires within { All (λ column. column < length labels.old) columns.now }
    requires room { HasRoom grid.now (length labels.old) (length seen.old) }
    requires none { labels.old ≡ replicate (length labels.old) 0 }
    requires unseen { seen.old ≡ replicate (length seen.old) false }
    ensures { IfOk result (λ count. AreLabels grid.now columns.now count labels.new) }
{
    let mut reached = Vec::new(alloc);
    let mut count = 0usize;
    for column in columns {
        if labels[*column as usize] == 0 {
            count += 1;
            begin_part(grid, *column, count, labels, seen, &mut reached)?;
        }
    }
    Ok(count)
}

/// Gives a part its first column, and spreads it.
fn begin_part(
    grid: &Grid,
    column: u32,
    part: usize,
    labels: &mut [usize],
    seen: &mut [bool],
    reached: &mut Vec<u32>,
) -> Result<(), Memory>
    requires room { HasRoom grid.now (length labels.old) (length seen.old) }
    requires some { 0 < part }
    requires within { column < length labels.old }
    requires none { part_of labels.old column ≡ 0 }
    requires begun { IsSpread grid.now (part - 1) (length reached.old.items) labels.old seen.old reached.old.items }
    ensures { OnOk result (SpreadsOn grid.now part (length reached.new.items) (slice_set labels.old column part) labels.new seen.new reached.new.items) }
{
    let from = reached.len();
    labels[column as usize] = part;
    reached.push(column)?;
    spread(grid, part, from, labels, seen, reached)
}

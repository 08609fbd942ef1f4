//! Where the entries of each row begin.
ghost use Rattle.std.specs.Prelude.{◌+◌, ◌^◌, ◌<◌, length, IfOk};
ghost use Rattle.cross_links.specs.Entries.{AreRising};
ghost use Rattle.cross_links.specs.Linkage.{IsStart, AreStarts};

use crate::Entry;
use base_kit::Memory;
use std::alloc::Global;

/// The index behind the entries of a row, which begin at `start`.
fn row_end(entries: &[Entry], row: u32, start: usize) -> usize
    requires rising { AreRising entries.now }
    requires start { IsStart entries.now row start }
    ensures { IsStart entries.now (row + 1) result }
{
    let mut end = start;
    while end < entries.len() && entries[end].row == row {
        end += 1;
    }
    end
}

/// The index at which each row's entries begin, and behind those the number of entries.
pub(crate) fn row_starts(alloc: Global, rows: u32, entries: &[Entry]) -> Result<Vec<u32>, Memory>
    requires rising { AreRising entries.now }
    requires few { length entries.now < 2 ^ 32 }
    ensures { IfOk result (λ starts. AreStarts rows entries.now starts.items) }
{
    let mut starts = Vec::with_capacity(alloc, rows as usize + 1)?;
    let mut start = 0;
    for row in 0..rows {
        starts.push(start as u32)?;
        start = row_end(entries, row, start);
    }
    starts.push(start as u32)?;
    Ok(starts)
}

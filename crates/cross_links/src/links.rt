//! Circular doubly linked lists by index: `next` and `back` have a place's neighbours.
ghost use Rattle.std.specs.Prelude.{◌≡◌, ℕ, ◌+◌, ◌-◌, ◌^◌, ◌<◌, ◌≤◌, IfOk, All, [], length, slice_index, slice_set};
ghost use Rattle.std.specs.List.{range_with_len};
ghost use Rattle.cross_links.specs.Rings.{Closed, Undoable, TakesOut, PutsBack};
ghost use Rattle.cross_links.specs.Linkage.{row_head, column_head};

use crate::Entry;
use base_kit::Memory;
use std::alloc::Global;

/// Links for so many places, each of which stands in a circle alone.
pub(crate) fn alone(alloc: Global, places: u32) -> Result<Vec<u32>, Memory>
    ensures { IfOk result (λ links. links.items ≡ range_with_len 0 places) }
{
    Ok((0..places).collect(alloc)?)
}

/// Links the place `x`, which stands alone, in front of `head`, that is behind the last place of its circle.
fn link_last(next: &mut [u32], back: &mut [u32], head: u32, x: u32)
    requires closed { Closed next.old back.old }
    requires head { head < length next.old }
    requires within { x < length next.old }
    ensures next { next.new ≡ slice_set (slice_set next.old (slice_index back.old head) x) x head }
    ensures back { back.new ≡ slice_set (slice_set back.old head x) x (slice_index back.old head) }
{
    let last = back[head as usize];
    next[last as usize] = x;
    next[x as usize] = head;
    back[head as usize] = x;
    back[x as usize] = last;
}

/// Links the places of all entries, which stand alone, behind the heads of their rows.
pub(crate) fn link_rows(next: &mut [u32], back: &mut [u32], first: u32, entries: &[Entry])
    requires few { first + length entries.now < 2 ^ 32 }
    requires within { All (λ entry. entry.row < first) entries.now }
    requires nexts { next.old ≡ range_with_len 0 (first + length entries.now) }
    requires backs { back.old ≡ range_with_len 0 (first + length entries.now) }
    ensures closed { Closed next.new back.new }
    ensures linked { Undoable (first + length entries.now) (row_head first entries.now) [] next.new back.new }
{
    for (i, entry) in entries.iter().enumerate() {
        link_last(next, back, entry.row, first + i as u32);
    }
}

/// Links the places of all entries, which stand alone, behind the heads of their columns.
pub(crate) fn link_columns(
    next: &mut [u32],
    back: &mut [u32],
    rows: u32,
    first: u32,
    entries: &[Entry],
)
    requires few { first + length entries.now < 2 ^ 32 }
    requires within { All (λ entry. rows + entry.column < first) entries.now }
    requires nexts { next.old ≡ range_with_len 0 (first + length entries.now) }
    requires backs { back.old ≡ range_with_len 0 (first + length entries.now) }
    ensures closed { Closed next.new back.new }
    ensures linked { Undoable (first + length entries.now) (column_head rows first entries.now) [] next.new back.new }
{
    for (i, entry) in entries.iter().enumerate() {
        link_last(next, back, rows + entry.column, first + i as u32);
    }
}

/// Takes the place `x` out of its circle. Its own links stay, so that it can be put back.
fn take_out(next: &mut [u32], back: &mut [u32], x: u32)
    requires closed { Closed next.old back.old }
    requires within { x < length next.old }
    ensures next { next.new ≡ slice_set next.old (slice_index back.old x) (slice_index next.old x) }
    ensures back { back.new ≡ slice_set back.old (slice_index next.old x) (slice_index back.old x) }
{
    let before = back[x as usize];
    let after = next[x as usize];
    next[before as usize] = after;
    back[after as usize] = before;
}

/// Puts the place `x` back, which is the last that was taken out.
fn put_back(next: &mut [u32], back: &mut [u32], x: u32)
    requires closed { Closed next.old back.old }
    requires within { x < length next.old }
    ensures next { next.new ≡ slice_set next.old (slice_index back.old x) x }
    ensures back { back.new ≡ slice_set back.old (slice_index next.old x) x }
{
    let before = back[x as usize];
    let after = next[x as usize];
    next[before as usize] = x;
    back[after as usize] = x;
}

/// Takes the places from one up to another out, in this order.
pub(crate) fn take_out_run(next: &mut [u32], back: &mut [u32], from: u32, to: u32)
    requires closed { Closed next.old back.old }
    requires order { from ≤ to }
    requires within { to ≤ length next.old }
    ensures closed { Closed next.new back.new }
    ensures taken { TakesOut from to next.old back.old next.new back.new }
{
    for x in from..to {
        take_out(next, back, x);
    }
}

/// Puts the places from one up to another back, which were the last that were taken out.
pub(crate) fn put_back_run(next: &mut [u32], back: &mut [u32], from: u32, to: u32)
    requires closed { Closed next.old back.old }
    requires order { from ≤ to }
    requires within { to ≤ length next.old }
    ensures closed { Closed next.new back.new }
    ensures put { PutsBack from to next.old back.old next.new back.new }
{
    for x in (from..to).rev() {
        put_back(next, back, x);
    }
}

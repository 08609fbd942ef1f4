//! The grid, with its circles and the stack of the rows that were unlinked.
ghost use Rattle.std.specs.Prelude.{◌≡◌, ◌↔◌, ℕ, ◌+◌, ◌-◌, ◌^◌, ◌<◌, ◌≤◌, ◌==◌, not, [], ◌∷◌, length, map, filter, All, Contains, IfOk, IfNone, IfSome, IsNone};
ghost use Rattle.cross_links.specs.Entries.{AreRising};
ghost use Rattle.std.specs.List.Sorted.{IsStrictlyIncreasing};
ghost use Rattle.cross_links.specs.Layout.{live, live_columns, live_rows, stack};
ghost use Rattle.cross_links.specs.Linkage.{entry_at};
ghost use Rattle.cross_links.specs.Walks.{HasLine, IsOnLine, head_of, first_place, rest_from, rest_behind};

use crate::Entry;
use crate::line::Line;
use crate::links::{alone, link_columns, link_rows, put_back_run, take_out_run};
use crate::starts::row_starts;
use crate::walk::GridWalk;
use base_kit::Memory;
use std::alloc::Global;
use std::marker::Model;

/// Entries linked four ways, with their neighbours in the row and in the column. It is seen as its
/// numbers of rows and columns, all its entries, and the stack of the rows that are unlinked; an entry
/// is live where its row is not. What is written of `live_columns`, `live_rows` and `stack` follows
/// from these. No call but `build` allocates (docs/ENCODING.md).
#[derive(Drop)]
pub struct Grid {
    rows: u32,
    columns: u32,
    entries: Vec<Entry>,
    // The index of each row's first entry, and behind those the number of entries.
    starts: Vec<u32>,
    // The neighbours of each place: first the heads of the rows, then those of the columns, then the entries.
    right: Vec<u32>,
    left: Vec<u32>,
    down: Vec<u32>,
    up: Vec<u32>,
    // The unlinked rows, with room for every row, and how many they are.
    stack: Vec<u32>,
    depth: usize,
}

impl Model for Grid {
    ghost use Rattle.cross_links.specs.Layout.{Layout};

    ghost Value = { Layout };

    ghost use Rattle.cross_links.specs.Linkage.{Kept, rows_on};

    ghost view = { λ g. record { rows = g.rows; columns = g.columns; entries = g.entries.items; unlinked = rows_on g.stack.items g.depth } };

    ghost invariant = { λ g. Kept g.rows g.columns g.entries.items g.starts.items g.stack.items g.depth g.right.items g.left.items g.down.items g.up.items };
}

impl Grid {
    /// The grid of so many rows and columns with these entries, all of them live. The entries stand in
    /// the rows and columns, rise by row and then by column, and are with the rows and the columns
    /// fewer than 2^32. `Err` means out of memory. The stack has room for every row from the start.
    pub fn build(alloc: Global, rows: u32, columns: u32, entries: &[Entry]) -> Result<Grid, Memory>
        requires within { All (λ entry. (entry.row < rows) × (entry.column < columns)) entries.now }
        requires rising { AreRising entries.now }
        requires few { length entries.now + rows + columns < 2 ^ 32 }
        ensures { IfOk result (λ grid. grid ≡ record { rows = rows; columns = columns; entries = entries.now; unlinked = [] }) }
    {
        let first = rows + columns;
        let places = first + entries.len() as u32;
        let starts = row_starts(alloc, rows, entries)?;
        let mut right = alone(alloc, places)?;
        let mut left = alone(alloc, places)?;
        link_rows(right.as_mut_slice(), left.as_mut_slice(), first, entries);
        let mut down = alone(alloc, places)?;
        let mut up = alone(alloc, places)?;
        link_columns(down.as_mut_slice(), up.as_mut_slice(), rows, first, entries);
        Ok(Grid {
            rows,
            columns,
            entries: Vec::from_slice(alloc, entries)?,
            starts,
            right,
            left,
            down,
            up,
            stack: vec![in alloc; 0; rows as usize]?,
            depth: 0,
        })
    }

    /// Takes the entries of a row out of all lists, and pushes the row on the stack. The row is one of
    /// the grid's that is not on the stack.
    pub fn unlink_row(&mut self, row: u32)
        requires within { row < self.old.rows }
        requires linked { ¬ Contains self.old.unlinked row }
        ensures pushed { self.new ≡ record self.old { unlinked = row ∷ self.old.unlinked } }

        // Exactly the row's entries are live no more, and stand on the stack by their columns.
        ensures taken { live self.new ≡ filter (λ entry. not (row == entry.row)) (live self.old) }
        ensures stacked { stack self.new ≡ (row, live_columns self.old row) ∷ stack self.old }
    {
        let first = self.rows + self.columns;
        let from = first + self.starts[row as usize];
        let to = first + self.starts[row as usize + 1];
        take_out_run(
            self.right.as_mut_slice(),
            self.left.as_mut_slice(),
            from,
            to,
        );
        take_out_run(self.down.as_mut_slice(), self.up.as_mut_slice(), from, to);
        self.stack[self.depth] = row;
        self.depth += 1;
    }

    /// Undoes the last `unlink_row` that was not undone, and gives its row: `None` exactly where the
    /// stack is empty.
    pub fn relink_row(&mut self) -> Option<u32>
        ensures empty { IsNone result ↔ (self.old.unlinked ≡ []) }
        ensures none { IfNone result (self.new ≡ self.old) }

        // The grid is the one of which `unlink_row` at this row made the grid before.
        ensures undone { IfSome result (λ row. self.old ≡ record self.new { unlinked = row ∷ self.new.unlinked }) }
        ensures kept { self.new ≡ record self.old { unlinked = self.new.unlinked } }
        ensures within { IfSome result (λ row. row < self.new.rows) }
        ensures linked { IfSome result (λ row. ¬ Contains self.new.unlinked row) }
    {
        let depth = self.depth.checked_sub(1)?;
        let row = self.stack[depth];
        let first = self.rows + self.columns;
        let from = first + self.starts[row as usize];
        let to = first + self.starts[row as usize + 1];
        put_back_run(self.down.as_mut_slice(), self.up.as_mut_slice(), from, to);
        put_back_run(
            self.right.as_mut_slice(),
            self.left.as_mut_slice(),
            from,
            to,
        );
        self.depth = depth;
        Some(row)
    }

    /// The live columns of a row of the grid, in rising order.
    pub fn row(&self, row: u32) -> GridWalk<'_>
        requires { row < self.now.rows }
        ensures numbers { result ≡ live_columns self.now row }
        ensures within { All (λ column. column < self.now.columns) result }
        ensures rising { IsStrictlyIncreasing result }
    {
        // What holds of the fields, as that entries rise, is known where one is read.
        let _entries = &self.entries;
        GridWalk::new(self, Line::Row(row))
    }

    /// The live rows of a column of the grid, in rising order.
    pub fn column(&self, column: u32) -> GridWalk<'_>
        requires { column < self.now.columns }
        ensures numbers { result ≡ live_rows self.now column }
        ensures within { All (λ row. row < self.now.rows) result }
        ensures rising { IsStrictlyIncreasing result }
    {
        let _entries = &self.entries;
        GridWalk::new(self, Line::Column(column))
    }

    /// The place of the head of a row or a column.
    pub(crate) fn head(&self, line: Line) -> u32
        requires { HasLine self.now line }
        ensures head { result ≡ head_of self.now line }
        ensures on { IsOnLine self.now line result }
    {
        match line {
            Line::Row(row) => row,
            Line::Column(column) => self.rows + column,
        }
    }

    /// The entry at a place, where it is no head.
    pub(crate) fn entry(&self, place: u32) -> Option<Entry>
        requires { place < first_place self.now + length self.now.entries }
        ensures head { IfNone result (place < first_place self.now) }
        ensures entry { IfSome result (λ entry. (first_place self.now ≤ place) × (entry ≡ entry_at self.now.entries (place - first_place self.now))) }
    {
        let index = place.checked_sub(self.rows + self.columns)?;
        Some(self.entries[index as usize])
    }

    /// The place behind one in the circle of a row or a column.
    pub(crate) fn after(&self, line: Line, place: u32) -> u32
        requires { IsOnLine self.now line place }
        ensures on { IsOnLine self.now line result }
        ensures rest { rest_from self.now line result ≡ rest_behind self.now line place }
    {
        match line {
            Line::Row(_) => self.right[place as usize],
            Line::Column(_) => self.down[place as usize],
        }
    }
}

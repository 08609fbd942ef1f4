//! The entries of a grid.

/// A place in a grid, where a row and a column cross. Both are numbered from 0.
#[derive(Clone, Copy, Debug, PartialEq, Eq)]
pub struct Entry {
    /// The number of the row.
    pub row: u32,
    /// The number of the column.
    pub column: u32,
}

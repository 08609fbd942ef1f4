//! Places in a text.

/// A place in a text: its line and its column, both counted from 1. LF alone ends a line, and a column counts bytes
/// (docs/LANGUAGE.md).
#[derive(Clone, Copy, Debug, PartialEq, Eq, PartialOrd, Ord, Hash)]
pub struct Place {
    pub line: u32,
    pub column: u32,
}

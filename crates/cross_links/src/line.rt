//! The rows and columns of a grid, by which walks go.

use crate::Entry;

/// A row or a column, whose circle a walk goes along.
#[derive(Clone, Copy)]
pub(crate) enum Line {
    Row(u32),
    Column(u32),
}

impl Line {
    ghost use Rattle.std.specs.Prelude.{◌≡◌};
    ghost use Rattle.cross_links.specs.Walks.{number_on};

    /// The number by which a walk names an entry: where it stands in the row or the column.
    pub(crate) fn number(self, entry: Entry) -> u32
        ensures { result ≡ number_on self entry }
    {
        match self {
            Line::Row(_) => entry.column,
            Line::Column(_) => entry.row,
        }
    }
}

//! Walks along the rows and columns of a grid.
ghost use Rattle.std.specs.Iterator.{YieldsFirst, item_count};

use crate::Grid;
use crate::line::Line;
use std::marker::Model;

/// A walk along a row or a column of a grid. It gives the numbers of the columns or rows of the live
/// entries there, in rising order and each once, and is seen as the list of those that are left.
#[derive(Drop)]
pub struct GridWalk<'a> {
    grid: &'a Grid,
    line: Line,
    // The place of the next number, or the head where none is left.
    place: u32,
}

impl<'a> Model for GridWalk<'a> {
    ghost use Rattle.std.specs.Prelude.{ℕ, List};

    ghost Value = { List ℕ };

    ghost use Rattle.cross_links.specs.Walks.{IsOnLine, rest_from};

    ghost view = { λ walk. rest_from walk.grid.now walk.line walk.place };

    ghost invariant = { λ walk. IsOnLine walk.grid.now walk.line walk.place };
}

impl<'a> GridWalk<'a> {
    ghost use Rattle.std.specs.Prelude.{◌≡◌};
    ghost use Rattle.cross_links.specs.Walks.{HasLine, numbers};

    /// The walk along a row or a column of a grid.
    pub(crate) fn new(grid: &'a Grid, line: Line) -> GridWalk<'a>
        requires { HasLine grid.now line }
        ensures { result ≡ numbers grid.now line grid.now.entries }
    {
        GridWalk {
            grid,
            line,
            place: grid.after(line, grid.head(line)),
        }
    }
}

impl<'a> Iterator for GridWalk<'a> {
    type Item = u32;

    ghost next_gives = { YieldsFirst (λ rest. rest) };

    ghost remaining = { item_count (λ rest. rest) };

    fn next(&mut self) -> Option<u32> {
        let entry = self.grid.entry(self.place)?;
        self.place = self.grid.after(self.line, self.place);
        Some(self.line.number(entry))
    }
}

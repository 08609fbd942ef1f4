//! What a reduction leaves.

use base_kit::List;
use cross_links::Grid;
use ip_rows::IpRow;

/// What is left of a program. Rows and columns keep the numbers that they have in the program (docs/REDUCTION.md).
#[derive(Drop)]
pub struct Reduced {
    /// The unfixed columns, rising.
    pub columns: List<u32>,
    /// The kept rows, with the fixed columns put in.
    pub rows: List<IpRow>,
    /// The numbers of the kept rows, rising.
    pub full: List<u32>,
    /// The first row that has no unfixed column and fails at every point.
    pub false_row: Option<u32>,
    /// A grid of all rows and columns, in which the entries of the kept rows at unfixed columns are live.
    pub grid: Grid,
}

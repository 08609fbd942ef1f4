//! Why bytes are not a valid table.
ghost use Rattle.tables_csv.specs.declared.fault.TableFault.{TableFault};
ghost use Rattle.tables_csv.specs.declared.fault.TableFault.TheVariants as refused;
ghost use Rattle.std.specs.Prelude.{◌≡◌};

use base_kit::Memory;
use std::alloc::AllocError;
use thiserror::Error;

/// Why bytes are not a valid table: the first fault in them (docs/TABLES.md, "Refusals"). Rows and
/// columns are counted from 1, the rows without the header.
#[derive(Clone, Copy, Debug, PartialEq, Eq, Error)]
pub enum TableFault {
    /// The first record is missing, or it is not the names of the columns in order.
    #[error("the first record is not the names of the columns")]
    Header,
    /// There is a row after the 200,000th.
    #[error("more than 200000 rows")]
    TooManyRows,
    /// The row has another number of fields than there are columns.
    #[error("row {row} has another number of fields than there are columns")]
    Ragged { row: u32 },
    /// The field of a text column is not valid UTF-8.
    #[error("row {row}, column {column}: the text is not valid UTF-8")]
    NotUtf8 { row: u32, column: u32 },
    /// The field of a text column has more than 1,000 bytes.
    #[error("row {row}, column {column}: the text has more than 1000 bytes")]
    TooLongText { row: u32, column: u32 },
    /// The field of a column of numbers is not a whole number from -10^15 to 10^15.
    #[error("row {row}, column {column}: not a whole number from -10^15 to 10^15")]
    BadNumber { row: u32, column: u32 },
    /// The row has the key of an earlier row.
    #[error("row {row} has the key of row {earlier}")]
    SameKey { row: u32, earlier: u32 },
    /// Out of memory.
    #[error("out of memory")]
    Memory,
}

impl From<Memory> for TableFault {
    ghost from_gives = { λ _ told. told ≡ refused.Memory };

    fn from(_fault: Memory) -> TableFault {
        TableFault::Memory
    }
}

impl From<AllocError> for TableFault {
    ghost from_gives = { λ _ told. told ≡ refused.Memory };

    fn from(_fault: AllocError) -> TableFault {
        TableFault::Memory
    }
}

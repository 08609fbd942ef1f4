//! Why a job is not taken.

use base_kit::{List, Memory, Place};
use std::alloc::AllocError;
use tables_csv::TableFault;
use tiql_check::SoundFault;

/// Why a file is refused.
#[derive(Clone, Copy, Debug, PartialEq, Eq)]
pub enum FileFault {
    /// There is no file of this name.
    Absent,
    /// It could not be read.
    ReadFailed,
    /// It has more bytes than a file may have.
    TooLong,
}

/// The first reason why a command is refused, in the order of docs/ANSWERS.md, "Refusals".
#[derive(Debug, Drop)]
pub enum Refusal {
    /// The words are none of the forms.
    Words,
    /// A file is refused; `name` is the name under which it was fetched.
    File { name: List<u8>, why: FileFault },
    /// The query's text is no query from this place on.
    Syntax(Place),
    /// The query breaks this rule first.
    Unsound(SoundFault),
    /// The file of this table is not a valid table: its first fault.
    Table { table: List<u8>, why: TableFault },
    /// A lower bound is above the upper one in this row, counted from 1, of the hypothetical table's own table.
    EmptyBounds { hypo: List<u8>, row: u32 },
    /// A value of the hypothetical table's WHERE or bounds is above 10^17 in size, or a bound is above 10^15.
    TooWide { hypo: List<u8>, number: i128 },
    /// There would be more than 20,000,000 world columns.
    TooManyWorldColumns,
    /// There are this many world columns, more than 100,000.
    TooManyColumns { count: u64 },
    /// This many columns have more than one value, more than 1,024.
    PartTooLarge { columns: u64 },
    /// The answer's text is no answer from this line on, counted from 1.
    Unreadable { line: u32 },
}

/// Why there is no job.
#[derive(Debug, Drop)]
pub enum Stop {
    /// The command is refused.
    Refused(Refusal),
    /// Out of memory.
    Memory,
}

impl From<Memory> for Stop {
    ghost use Rattle.std.specs.Prelude.{◌≡◌};
    ghost use Rattle.job_intake.specs.declared.refusal.Stop.{Stop};

    ghost from_gives = { λ _ stop. stop ≡ Stop.Memory };

    fn from(_fault: Memory) -> Stop {
        Stop::Memory
    }
}

impl From<AllocError> for Stop {
    ghost use Rattle.std.specs.Prelude.{◌≡◌};
    ghost use Rattle.job_intake.specs.declared.refusal.Stop.{Stop};

    ghost from_gives = { λ _ stop. stop ≡ Stop.Memory };

    fn from(_fault: AllocError) -> Stop {
        Stop::Memory
    }
}

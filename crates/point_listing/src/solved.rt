//! What a listing of a program comes to.

use answer_text::PartAnswer;
use base_kit::{List, Memory};
use std::alloc::AllocError;
use thiserror::Error;

/// How the work at a program ended (docs/ANSWERS.md).
#[derive(Debug, Drop)]
pub enum Solved {
    /// A whole point of which none has a lesser value, and what was found in each part.
    Best {
        point: List<i64>,
        parts: List<PartAnswer>,
    },
    /// No point is whole, since this row, counted from 0, has no column with two values and fails.
    FalseRow {
        row: u32,
    },
    /// No point is whole, since this part has no whole point.
    NoWorld {
        part: PartAnswer,
    },
    /// The budget is spent, and some boxes have not been worked.
    Spent {
        parts: List<PartAnswer>,
    },
}

/// Why a program is not solved (docs/LIMITS.md).
#[derive(Clone, Copy, Debug, PartialEq, Eq, Error)]
pub enum SolveFault {
    /// A part has more than 1,024 columns with two values, or more than 4,096 rows.
    #[error("a part of the program is too large")]
    PartTooLarge {
        /// The part's number, counted from 1.
        part: u32,
        /// Its columns.
        columns: u32,
        /// Its rows.
        rows: u32,
    },
    /// Out of memory.
    #[error("out of memory")]
    Memory,
}

impl From<Memory> for SolveFault {
    ghost use Rattle.std.specs.Prelude.{◌≡◌};
    ghost use Rattle.point_listing.specs.declared.solved.SolveFault.{SolveFault};

    ghost from_gives = { λ _ told. told ≡ SolveFault.Memory };

    fn from(_fault: Memory) -> SolveFault {
        SolveFault::Memory
    }
}

impl From<AllocError> for SolveFault {
    ghost use Rattle.std.specs.Prelude.{◌≡◌};
    ghost use Rattle.point_listing.specs.declared.solved.SolveFault.{SolveFault};

    ghost from_gives = { λ _ told. told ≡ SolveFault.Memory };

    fn from(_fault: AllocError) -> SolveFault {
        SolveFault::Memory
    }
}

//! Why there is no program.

use base_kit::Memory;
use std::alloc::{AllocError, AllocFailed};
use thiserror::Error;
use used_columns::ColumnsFault;

/// Why there is no program for a list of formulas (docs/ENCODING.md).
#[derive(Clone, Copy, Debug, PartialEq, Eq, Error)]
pub enum ProgramFault {
    /// There would be more than 100,000 columns.
    #[error("too many columns: {count}")]
    TooManyColumns {
        /// How many there would be, those of the world among them.
        count: u64,
    },
    /// The rows and their terms would be more than 50,000,000 together.
    #[error("program too large")]
    TooLarge,
    /// Out of memory.
    #[error("out of memory")]
    Memory,
}

impl From<ColumnsFault> for ProgramFault {
    ghost use Rattle.std.specs.Prelude.{◌≡◌};
    ghost use Rattle.program_rows.specs.Faults.{fault_of};

    ghost from_gives = { λ fault told. told ≡ fault_of fault };

    fn from(fault: ColumnsFault) -> ProgramFault {
        match fault {
            ColumnsFault::TooManyColumns { count } => ProgramFault::TooManyColumns { count },
            ColumnsFault::Memory => ProgramFault::Memory,
        }
    }
}

impl From<Memory> for ProgramFault {
    ghost use Rattle.std.specs.Prelude.{◌≡◌};
    ghost use Rattle.program_rows.specs.declared.fault.ProgramFault.{ProgramFault};

    ghost from_gives = { λ _ told. told ≡ ProgramFault.Memory };

    fn from(_fault: Memory) -> ProgramFault {
        ProgramFault::Memory
    }
}

impl From<AllocError> for ProgramFault {
    ghost use Rattle.std.specs.Prelude.{◌≡◌};
    ghost use Rattle.program_rows.specs.declared.fault.ProgramFault.{ProgramFault};

    ghost from_gives = { λ _ told. told ≡ ProgramFault.Memory };

    fn from(_fault: AllocError) -> ProgramFault {
        ProgramFault::Memory
    }
}

impl<T: Drop> From<AllocFailed<T>> for ProgramFault {
    ghost use Rattle.std.specs.Prelude.{◌≡◌};
    ghost use Rattle.program_rows.specs.declared.fault.ProgramFault.{ProgramFault};

    ghost from_gives = { λ _ told. told ≡ ProgramFault.Memory };

    fn from(_fault: AllocFailed<T>) -> ProgramFault {
        ProgramFault::Memory
    }
}

//! Why there are no columns.

use base_kit::Memory;
use std::alloc::{AllocError, AllocFailed};
use thiserror::Error;

/// Why there are no columns for the used nodes (docs/ENCODING.md, "The columns").
#[derive(Clone, Copy, Debug, PartialEq, Eq, Error)]
pub enum ColumnsFault {
    /// There would be more than 100,000 columns.
    #[error("too many columns: {count}")]
    TooManyColumns {
        /// How many there would be, those of the world among them.
        count: u64,
    },
    /// Out of memory.
    #[error("out of memory")]
    Memory,
}

impl From<Memory> for ColumnsFault {
    ghost use Rattle.std.specs.Prelude.{◌≡◌};
    ghost use Rattle.used_columns.specs.declared.fault.ColumnsFault.{ColumnsFault};

    ghost from_gives = { λ _ told. told ≡ ColumnsFault.Memory };

    fn from(_fault: Memory) -> ColumnsFault {
        ColumnsFault::Memory
    }
}

impl From<AllocError> for ColumnsFault {
    ghost use Rattle.std.specs.Prelude.{◌≡◌};
    ghost use Rattle.used_columns.specs.declared.fault.ColumnsFault.{ColumnsFault};

    ghost from_gives = { λ _ told. told ≡ ColumnsFault.Memory };

    fn from(_fault: AllocError) -> ColumnsFault {
        ColumnsFault::Memory
    }
}

impl<T: Drop> From<AllocFailed<T>> for ColumnsFault {
    ghost use Rattle.std.specs.Prelude.{◌≡◌};
    ghost use Rattle.used_columns.specs.declared.fault.ColumnsFault.{ColumnsFault};

    ghost from_gives = { λ _ told. told ≡ ColumnsFault.Memory };

    fn from(_fault: AllocFailed<T>) -> ColumnsFault {
        ColumnsFault::Memory
    }
}

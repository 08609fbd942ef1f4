//! Refusals.
ghost use Rattle.std.specs.Prelude.{◌≡◌};

use base_kit::Memory;
use prov_arena::ArenaMemory;
use std::alloc::{AllocError, AllocFailed};
use thiserror::Error;

/// Why a call makes no node.
#[derive(Clone, Copy, Debug, PartialEq, Eq, Error)]
pub enum FoldFault {
    /// This number, a constant or an end of a range, passes 10^17 in size.
    #[error("the number {0} is too large")]
    Wide(i128),
    /// The list has 20,000,000 parts, and one more would be appended.
    #[error("too many parts")]
    Full,
    /// There was not enough memory.
    #[error("out of memory")]
    Memory,
}

impl From<ArenaMemory> for FoldFault {
    ghost use Rattle.prov_fold.specs.declared.fault.FoldFault.{FoldFault};

    ghost from_gives = { λ _ e. e ≡ FoldFault.Memory };

    fn from(_fault: ArenaMemory) -> FoldFault {
        FoldFault::Memory
    }
}

impl From<Memory> for FoldFault {
    ghost use Rattle.prov_fold.specs.declared.fault.FoldFault.{FoldFault};

    ghost from_gives = { λ _ e. e ≡ FoldFault.Memory };

    fn from(_fault: Memory) -> FoldFault {
        FoldFault::Memory
    }
}

impl From<AllocError> for FoldFault {
    ghost use Rattle.prov_fold.specs.declared.fault.FoldFault.{FoldFault};

    ghost from_gives = { λ _ e. e ≡ FoldFault.Memory };

    fn from(_fault: AllocError) -> FoldFault {
        FoldFault::Memory
    }
}

impl<T: Drop> From<AllocFailed<T>> for FoldFault {
    ghost use Rattle.prov_fold.specs.declared.fault.FoldFault.{FoldFault};

    ghost from_gives = { λ _ e. e ≡ FoldFault.Memory };

    fn from(_fault: AllocFailed<T>) -> FoldFault {
        FoldFault::Memory
    }
}

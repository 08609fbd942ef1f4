//! Why possible rows were not made.

use base_kit::Memory;
use prov_fold::FoldFault;
use row_values::Wide;
use std::alloc::{AllocError, AllocFailed};
use thiserror::Error;

/// Why possible rows were not made (docs/FORMULAS.md, "The walk"). What was appended to the formulas before stays.
#[derive(Clone, Copy, Debug, PartialEq, Eq, Error)]
pub enum WalkFault {
    /// A number passes 10^17 in size.
    #[error("the number {number} is too large")]
    Wide {
        /// A value, a partial product, or the constant or an end of the range of a sum.
        number: i128,
    },
    /// There are more combinations or rows than this.
    #[error("there are more than {limit} rows")]
    TooManyRows {
        /// 10,000,000 combinations that meet the equalities, or 200,000 rows.
        limit: u32,
    },
    /// There are 20,000,000 formulas, and one more would be appended.
    #[error("too many formulas")]
    Full,
    /// Out of memory.
    #[error("out of memory")]
    Memory,
}

impl From<FoldFault> for WalkFault {
    ghost use Rattle.std.specs.Prelude.{◌≡◌};
    ghost use Rattle.sym_rows.specs.Walks.{fault_of};

    ghost from_gives = { λ fold walk. walk ≡ fault_of fold };

    fn from(fault: FoldFault) -> WalkFault {
        match fault {
            FoldFault::Wide(number) => WalkFault::Wide { number },
            FoldFault::Full => WalkFault::Full,
            FoldFault::Memory => WalkFault::Memory,
        }
    }
}

impl From<Wide> for WalkFault {
    ghost use Rattle.std.specs.Prelude.{◌≡◌};
    ghost use Rattle.sym_rows.specs.declared.fault.WalkFault.{WalkFault};

    ghost from_gives = { λ wide walk. walk ≡ WalkFault.Wide wide.number };

    fn from(wide: Wide) -> WalkFault {
        WalkFault::Wide {
            number: wide.number,
        }
    }
}

impl From<Memory> for WalkFault {
    ghost use Rattle.std.specs.Prelude.{◌≡◌};
    ghost use Rattle.sym_rows.specs.declared.fault.WalkFault.{WalkFault};

    ghost from_gives = { λ _ walk. walk ≡ WalkFault.Memory };

    fn from(_fault: Memory) -> WalkFault {
        WalkFault::Memory
    }
}

impl From<AllocError> for WalkFault {
    ghost use Rattle.std.specs.Prelude.{◌≡◌};
    ghost use Rattle.sym_rows.specs.declared.fault.WalkFault.{WalkFault};

    ghost from_gives = { λ _ walk. walk ≡ WalkFault.Memory };

    fn from(_fault: AllocError) -> WalkFault {
        WalkFault::Memory
    }
}

impl<T: Drop> From<AllocFailed<T>> for WalkFault {
    ghost use Rattle.std.specs.Prelude.{◌≡◌};
    ghost use Rattle.sym_rows.specs.declared.fault.WalkFault.{WalkFault};

    ghost from_gives = { λ _ walk. walk ≡ WalkFault.Memory };

    fn from(_fault: AllocFailed<T>) -> WalkFault {
        WalkFault::Memory
    }
}

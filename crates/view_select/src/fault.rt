//! Why the rows of a select were not made.

use base_kit::Memory;
use row_values::Wide;
use std::alloc::{AllocError, AllocFailed};
use thiserror::Error;

/// Why the rows of a select were not made (docs/MEANING.md, "Views").
#[derive(Clone, Copy, Debug, PartialEq, Eq, Error)]
pub enum ViewFault {
    /// A value passes 10^17 in size.
    #[error("a value passes 10^17 in size")]
    Wide {
        /// The first asked value that passes; of a product its first partial product from the left that does.
        number: i128,
    },
    /// There are more combinations or rows than this.
    #[error("there are more than {limit} rows")]
    TooManyRows {
        /// 10,000,000 combinations that meet the equalities, or 200,000 rows.
        limit: u32,
    },
    /// Out of memory.
    #[error("out of memory")]
    Memory,
}

impl From<Wide> for ViewFault {
    ghost use Rattle.std.specs.Prelude.{◌≡◌};
    ghost use Rattle.view_select.specs.declared.fault.ViewFault.{ViewFault};

    ghost from_gives = { λ wide told. told ≡ ViewFault.Wide wide.number };

    fn from(wide: Wide) -> ViewFault {
        ViewFault::Wide {
            number: wide.number,
        }
    }
}

impl From<Memory> for ViewFault {
    ghost use Rattle.std.specs.Prelude.{◌≡◌};
    ghost use Rattle.view_select.specs.declared.fault.ViewFault.{ViewFault};

    ghost from_gives = { λ _ told. told ≡ ViewFault.Memory };

    fn from(_fault: Memory) -> ViewFault {
        ViewFault::Memory
    }
}

impl From<AllocError> for ViewFault {
    ghost use Rattle.std.specs.Prelude.{◌≡◌};
    ghost use Rattle.view_select.specs.declared.fault.ViewFault.{ViewFault};

    ghost from_gives = { λ _ told. told ≡ ViewFault.Memory };

    fn from(_fault: AllocError) -> ViewFault {
        ViewFault::Memory
    }
}

impl<T: Drop> From<AllocFailed<T>> for ViewFault {
    ghost use Rattle.std.specs.Prelude.{◌≡◌};
    ghost use Rattle.view_select.specs.declared.fault.ViewFault.{ViewFault};

    ghost from_gives = { λ _ told. told ≡ ViewFault.Memory };

    fn from(_fault: AllocFailed<T>) -> ViewFault {
        ViewFault::Memory
    }
}

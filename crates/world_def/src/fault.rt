//! Why a value, a bound or a score was refused.

use base_kit::Memory;
use std::alloc::AllocError;
use thiserror::Error;
use tiql_query::Source;

/// Why a world was not judged.
#[derive(Clone, Copy, Debug, PartialEq, Eq, Error)]
pub enum EvalFault {
    /// A value passes 10^17 in size.
    #[error("a value passes 10^17 in size")]
    Wide {
        /// The view in whose select it came, or the relation whose condition or goal asked for it.
        source: Source,
        /// The value.
        number: i128,
    },
    /// A select has more combinations that meet its equalities, or a select or a view has more rows, than are allowed.
    #[error("there are more than {limit} rows")]
    TooManyRows {
        /// The number of the view, from 0.
        view: u32,
        /// 10,000,000 combinations, or 200,000 rows.
        limit: u32,
    },
    /// Out of memory.
    #[error("out of memory")]
    Memory,
}

impl From<Memory> for EvalFault {
    ghost use Rattle.std.specs.Prelude.{◌≡◌};
    ghost use Rattle.world_def.specs.declared.fault.EvalFault.{EvalFault};

    ghost from_gives = { λ _ told. told ≡ EvalFault.Memory };

    fn from(_fault: Memory) -> EvalFault {
        EvalFault::Memory
    }
}

impl From<AllocError> for EvalFault {
    ghost use Rattle.std.specs.Prelude.{◌≡◌};
    ghost use Rattle.world_def.specs.declared.fault.EvalFault.{EvalFault};

    ghost from_gives = { λ _ told. told ≡ EvalFault.Memory };

    fn from(_fault: AllocError) -> EvalFault {
        EvalFault::Memory
    }
}

/// Why a query has no world columns.
#[derive(Clone, Copy, Debug, PartialEq, Eq, Error)]
pub enum BoundsFault {
    /// A lower bound is above the upper one.
    #[error("a lower bound is above the upper one")]
    EmptyBounds {
        /// The number of the hypothetical table, from 0.
        hypo: u32,
        /// The row of its table, from 1.
        row: u32,
    },
    /// A value of WHERE or of a bound passes 10^17 in size, or a bound passes 10^15.
    #[error("a value of WHERE or of a bound is too large")]
    Wide {
        /// The number of the hypothetical table, from 0.
        hypo: u32,
        /// The value.
        number: i128,
    },
    /// There would be more than 20,000,000 world columns.
    #[error("there are more than 20000000 world columns")]
    TooManyWorldColumns,
    /// Out of memory.
    #[error("out of memory")]
    Memory,
}

impl From<Memory> for BoundsFault {
    ghost use Rattle.std.specs.Prelude.{◌≡◌};
    ghost use Rattle.world_def.specs.declared.fault.BoundsFault.{BoundsFault};

    ghost from_gives = { λ _ told. told ≡ BoundsFault.Memory };

    fn from(_fault: Memory) -> BoundsFault {
        BoundsFault::Memory
    }
}

impl From<AllocError> for BoundsFault {
    ghost use Rattle.std.specs.Prelude.{◌≡◌};
    ghost use Rattle.world_def.specs.declared.fault.BoundsFault.{BoundsFault};

    ghost from_gives = { λ _ told. told ≡ BoundsFault.Memory };

    fn from(_fault: AllocError) -> BoundsFault {
        BoundsFault::Memory
    }
}

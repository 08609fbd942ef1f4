//! Why there is no program.

ghost use Rattle.std.specs.Prelude.{◌≡◌};
ghost use Rattle.agg_encode.specs.Built as spec;

use base_kit::Memory;
use program_rows::ProgramFault;
use sym_query::QueryFault;
use thiserror::Error;
use tiql_query::Source;

/// Why a query over its tables has no program (docs/ENCODING.md, "Limits").
#[derive(Clone, Copy, Debug, PartialEq, Eq, Error)]
pub enum BuildFault {
    /// A number passes 10^17 in size (docs/FORMULAS.md, "The walk").
    #[error("the number {number} is too large")]
    Wide {
        /// The hypothetical table or the view whose rows were made, or the relation of the requirement or of the objective.
        source: Source,
        /// A value, a partial product, or the constant or an end of the range of a sum.
        number: i128,
    },
    /// A view or a select of it has more than this.
    #[error("there are more than {limit} rows")]
    TooManyRows {
        /// The number of the view, from 0.
        view: u32,
        /// 10,000,000 combinations that meet the equalities, or 200,000 rows.
        limit: u32,
    },
    /// There are 20,000,000 formulas, and one more would be appended.
    #[error("too many formulas")]
    TooManyFormulas,
    /// There would be more than 100,000 columns.
    #[error("too many columns: {count}")]
    TooManyColumns {
        /// How many there would be, those of the world among them.
        count: u64,
    },
    /// The rows and their terms together would be more than 50,000,000.
    #[error("the program is too large")]
    TooLargeProgram,
    /// Out of memory.
    #[error("out of memory")]
    Memory,
}

impl From<Memory> for BuildFault {
    ghost use Rattle.std.specs.Prelude.{◌≡◌};
    ghost use Rattle.agg_encode.specs.declared.fault.BuildFault.{BuildFault};

    ghost from_gives = { λ _ told. told ≡ BuildFault.Memory };

    fn from(_fault: Memory) -> BuildFault {
        BuildFault::Memory
    }
}

/// What stopped the walk.
pub(crate) fn of_walk(fault: QueryFault) -> BuildFault
    ensures { result ≡ spec.of_walk fault }
{
    match fault {
        QueryFault::Wide { source, number } => BuildFault::Wide { source, number },
        QueryFault::TooManyRows { view, limit } => BuildFault::TooManyRows { view, limit },
        QueryFault::Full => BuildFault::TooManyFormulas,
        QueryFault::Memory => BuildFault::Memory,
    }
}

/// What stopped the making of columns and rows.
pub(crate) fn of_program(fault: ProgramFault) -> BuildFault
    ensures { result ≡ spec.of_program fault }
{
    match fault {
        ProgramFault::TooManyColumns { count } => BuildFault::TooManyColumns { count },
        ProgramFault::TooLarge => BuildFault::TooLargeProgram,
        ProgramFault::Memory => BuildFault::Memory,
    }
}

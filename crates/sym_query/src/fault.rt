//! Why the walk of a query stopped.

ghost use Rattle.std.specs.Prelude.{◌≡◌};
ghost use Rattle.sym_query.specs.Walks as spec;

use base_kit::Memory;
use std::alloc::AllocError;
use sym_rows::WalkFault;
use thiserror::Error;
use tiql_query::Source;

/// Why the walk of a query stopped (docs/FORMULAS.md, "The walk"). What was appended to the formulas before stays.
#[derive(Clone, Copy, Debug, PartialEq, Eq, Error)]
pub enum QueryFault {
    /// A number passes 10^17 in size.
    #[error("the number {number} is too large")]
    Wide {
        /// The hypothetical table or the view whose rows were made, or the relation of the requirement or of the objective.
        source: Source,
        /// A value, a partial product, or the constant or an end of the range of a sum.
        number: i128,
    },
    /// A view or a select of it has more than this.
    #[error("there are more than {limit} rows")]
    TooManyRows {
        /// The number of the view, from 0.
        view: u32,
        /// 10,000,000 combinations that meet the equalities, or 200,000 rows.
        limit: u32,
    },
    /// There are 20,000,000 formulas, and one more would be appended.
    #[error("too many formulas")]
    Full,
    /// Out of memory.
    #[error("out of memory")]
    Memory,
}

impl From<Memory> for QueryFault {
    ghost use Rattle.std.specs.Prelude.{◌≡◌};
    ghost use Rattle.sym_query.specs.declared.fault.QueryFault.{QueryFault};

    ghost from_gives = { λ _ fault. fault ≡ QueryFault.Memory };

    fn from(_fault: Memory) -> QueryFault {
        QueryFault::Memory
    }
}

impl From<AllocError> for QueryFault {
    ghost use Rattle.std.specs.Prelude.{◌≡◌};
    ghost use Rattle.sym_query.specs.declared.fault.QueryFault.{QueryFault};

    ghost from_gives = { λ _ fault. fault ≡ QueryFault.Memory };

    fn from(_fault: AllocError) -> QueryFault {
        QueryFault::Memory
    }
}

/// What the walk of a relation came to, told with its name.
pub(crate) fn told_of<A>(source: Source, made: Result<A, WalkFault>) -> Result<A, QueryFault>
    ensures { result ≡ spec.told_of source made }
{
    match made {
        Ok(made) => Ok(made),
        Err(fault) => Err(fault_of(source, fault)),
    }
}

/// What stopped in the walk of a relation, told with its name.
#[tactic(auto, unfolding(crate::specs::Walks::fault_of))]
fn fault_of(source: Source, fault: WalkFault) -> QueryFault
    ensures { result ≡ spec.fault_of source fault }
{
    match fault {
        WalkFault::Wide { number } => QueryFault::Wide { source, number },
        WalkFault::TooManyRows { limit } => QueryFault::TooManyRows {
            view: number_of(source),
            limit,
        },
        WalkFault::Full => QueryFault::Full,
        WalkFault::Memory => QueryFault::Memory,
    }
}

fn number_of(source: Source) -> u32
    ensures { result ≡ spec.number_of source }
{
    match source {
        Source::Table(number) => number,
        Source::Hypo(number) => number,
        Source::View(number) => number,
    }
}

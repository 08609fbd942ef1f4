//! Why an answer is refused.

ghost use Rattle.std.specs.Prelude.{◌≡◌};
ghost use Rattle.cert_check.specs.declared.fault.CheckFault.{CheckFault};
ghost use Rattle.cert_check.specs.declared.fault.CheckFault.TheVariants as fault;
ghost use Rattle.cert_check.specs.Faults as spec;

use base_kit::Memory;
use thiserror::Error;
use tiql_query::Source;
use world_def::EvalFault;

/// A reason for which an answer is refused, in the order in which they are tried (docs/ANSWERS.md).
#[derive(Clone, Copy, Debug, PartialEq, Eq)]
pub enum Reject {
    /// The work has not come to its end.
    Unfinished,
    /// The three numbers are not those of the program.
    WrongProgram,
    /// The sections give no possible world.
    WrongWorld,
    /// The world does not meet what is required.
    WorldBreaks,
    /// The objective is not the world's score.
    WrongObjective,
    /// The row is not a false one.
    RowHolds,
    /// The parts are not all parts in order, or the part is not the one of its number.
    WrongParts,
    /// The best value of the part is not the one that the world has there, or there is one and no world will do.
    BestDiffers,
    /// The column of the split is not one of the part, or its number leaves nothing on one side.
    WrongSplit,
    /// The node is open.
    OpenNode,
    /// The box has a column with two values.
    NotFixed,
    /// The one world of the box meets, and is better than the best value.
    FixedBeats,
}

/// Why an answer was not accepted.
#[derive(Clone, Copy, Debug, PartialEq, Eq, Error)]
pub enum CheckFault {
    /// The answer is not valid. The part is counted from 1 and the node from 1 in preorder; both are 0 where none is
    /// meant (docs/ANSWERS.md).
    #[error("not valid in part {part} at node {node}: {reason:?}")]
    Rejected {
        reason: Reject,
        part: u32,
        node: u32,
    },
    /// A world that has to be judged has a value of more than 10^17 in size (docs/MEANING.md, "The number told").
    #[error("a value passes 10^17 in size")]
    Wide {
        /// The view in whose select it came, or the relation whose condition or goal asked for it.
        source: Source,
        /// The value.
        number: i128,
    },
    /// In a world that has to be judged a view has too many rows, or too many combinations of rows come up for it.
    #[error("there are more than {limit} rows")]
    TooManyRows {
        /// The number of the view, from 0.
        view: u32,
        /// 10,000,000 combinations, or 200,000 rows.
        limit: u32,
    },
    /// Memory ran out.
    #[error("out of memory")]
    Memory,
}

impl From<Memory> for CheckFault {
    ghost from_gives = { λ _ told. told ≡ fault.Memory };

    fn from(_fault: Memory) -> CheckFault {
        CheckFault::Memory
    }
}

impl From<EvalFault> for CheckFault {
    ghost from_gives = { λ cause told. told ≡ spec.as_told cause };

    fn from(cause: EvalFault) -> CheckFault {
        match cause {
            EvalFault::Wide { source, number } => CheckFault::Wide { source, number },
            EvalFault::TooManyRows { view, limit } => CheckFault::TooManyRows { view, limit },
            EvalFault::Memory => CheckFault::Memory,
        }
    }
}

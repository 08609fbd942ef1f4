//! Why a query is not sound.

use base_kit::{Memory, Place};
use std::alloc::{AllocError, AllocFailed};
use thiserror::Error;

/// The first rule that a query breaks, with the place that is reported (docs/LANGUAGE.md, "Soundness").
#[derive(Clone, Copy, Debug, PartialEq, Eq, Error)]
pub enum SoundFault {
    /// An unknown name: nothing that may stand there is called so. The place is that of the name, or of the first name of a column.
    #[error("unknown name")]
    UnknownName(Place),
    /// A name that is to differ from earlier ones is one of them, or a bare name is that of columns of two sources. The place is that
    /// of the second name, or of the bare one.
    #[error("same name")]
    SameName(Place),
    /// A name of a KEY is no column of its table. The place is that of the name.
    #[error("no such key column")]
    NoSuchKeyColumn(Place),
    /// A column of SET is one of the KEY. The place is that of its name.
    #[error("key unknown")]
    KeyUnknown(Place),
    /// DROP is written over a table without KEY. The place is that of DROP.
    #[error("key missing")]
    KeyMissing(Place),
    /// A text stands where a number must, what is compared is of two types, or a select of a view has other columns than the first
    /// one. The place is that of the operand, of the right side, or of the item; that of SELECT where the numbers of columns differ.
    #[error("wrong type")]
    WrongType(Place),
    /// A column of GROUP BY, or an item of a DISTINCT select, is unknown. The place is that of the column or item.
    #[error("not fixed")]
    NotFixed(Place),
    /// A second factor of a product is unknown. The place is that of this factor.
    #[error("not linear")]
    NotLinear(Place),
    /// An item of a grouped select is neither an aggregate nor a column of GROUP BY, or a grouped select has DISTINCT. The place is
    /// that of the item or of SELECT.
    #[error("not grouped")]
    NotGrouped(Place),
    /// Out of memory, or there are more than 2^32 relations, sources or columns.
    #[error("out of memory")]
    Memory,
}

impl From<Memory> for SoundFault {
    ghost use Rattle.std.specs.Prelude.{◌≡◌};
    ghost use Rattle.tiql_check.specs.declared.fault.SoundFault.{SoundFault};

    ghost from_gives = { λ _ told. told ≡ SoundFault.Memory };

    fn from(_fault: Memory) -> SoundFault {
        SoundFault::Memory
    }
}

impl From<AllocError> for SoundFault {
    ghost use Rattle.std.specs.Prelude.{◌≡◌};
    ghost use Rattle.tiql_check.specs.declared.fault.SoundFault.{SoundFault};

    ghost from_gives = { λ _ told. told ≡ SoundFault.Memory };

    fn from(_fault: AllocError) -> SoundFault {
        SoundFault::Memory
    }
}

impl<T: Drop> From<AllocFailed<T>> for SoundFault {
    ghost use Rattle.std.specs.Prelude.{◌≡◌};
    ghost use Rattle.tiql_check.specs.declared.fault.SoundFault.{SoundFault};

    ghost from_gives = { λ _ told. told ≡ SoundFault.Memory };

    fn from(_fault: AllocFailed<T>) -> SoundFault {
        SoundFault::Memory
    }
}

//! Where text goes.
ghost use Rattle.std.specs.Prelude.{ℕ, ◌<◌, List, Option, length};
ghost use Rattle.outside_io.specs.Sinks.{Counts, Puts};

use std::alloc::{AllocError, Global};
use thiserror::Error;

/// Why a piece was not written whole.
#[derive(Clone, Copy, Debug, PartialEq, Eq, Error)]
pub enum SinkFault {
    /// The write failed: a beginning of the piece was written, maybe none of it. The sink's faults rose.
    #[error("the text was not written")]
    Failed,
    /// Out of memory. Nothing was written, and no count rose.
    #[error("out of memory")]
    Memory,
}

/// An output that is written in pieces. The count never falls, and stops at 2^64 - 1.
pub trait Sink {
    /// What was written, where that is told.
    ghost written: { Self → Option (List ℕ) };

    /// How often a piece was not written whole.
    ghost faults: { Self → ℕ };

    /// Appends the piece.
    fn put(&mut self, alloc: Global, piece: &[u8]) -> Result<(), SinkFault>
        requires { 0 < length piece.now }
        ensures written { Puts (written self.old) (written self.new) piece.now result }
        ensures counts { Counts (faults self.old) (faults self.new) result };
}

impl From<AllocError> for SinkFault {
    ghost use Rattle.std.specs.Prelude.{◌≡◌};
    ghost use Rattle.outside_io.specs.declared.sink.SinkFault.TheVariants.{Memory};

    ghost from_gives = { λ _ fault. fault ≡ Memory };

    fn from(_fault: AllocError) -> SinkFault {
        SinkFault::Memory
    }
}

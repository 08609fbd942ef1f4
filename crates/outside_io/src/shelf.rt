//! Where files come from.
ghost use Rattle.std.specs.Prelude.{◌≡◌, ℕ, ◌≤◌, length, None, IfOk, IfSome, IsErrOf};
ghost use Rattle.outside_io.specs.Shelves.{Contents, Counts, Failures, FailsAsTold, Fetches, later};
ghost use Rattle.outside_io.specs.declared.shelf.ShelfFault.TheVariants.{Absent};

use std::alloc::{AllocError, Global};
use thiserror::Error;

/// Why a fetch failed.
#[derive(Clone, Copy, Debug, PartialEq, Eq, Error)]
pub enum ShelfFault {
    /// There is no file of this name. The shelf's misses rose.
    #[error("no such file")]
    Absent,
    /// The file could not be read. The shelf's faults rose.
    #[error("the file was not read")]
    Failed,
    /// Out of memory. No count rose.
    #[error("out of memory")]
    Memory,
}

/// Files that are fetched by name. The counts never fall, and stop at 2^64 - 1.
pub trait Shelf {
    /// The bytes of each file, where that is told. No call changes them.
    ghost held: { Self → Contents };

    /// Whether the fetch so many calls from now will fail, where that is told: 0 is the next one.
    ghost fails: { Self → Failures };

    /// How often there was no file of a name.
    ghost misses: { Self → ℕ };

    /// How often a file could not be read.
    ghost faults: { Self → ℕ };

    /// The first `max` bytes of the file of this name, or all of them where it has fewer.
    fn fetch(&mut self, alloc: Global, name: &str, max: usize) -> Result<Vec<u8>, ShelfFault>
        ensures held { held self.new ≡ held self.old }
        ensures bound { IfOk result (λ bytes. length bytes.items ≤ max) }
        ensures found { IfOk result (λ bytes. IfSome (held self.old) (Fetches bytes.items name.now max)) }
        ensures absent { IsErrOf result Absent → IfSome (held self.old) (λ map. map name.now ≡ None) }
        ensures failed { FailsAsTold (fails self.old) result }
        ensures later { fails self.new ≡ later (fails self.old) }
        ensures counts { Counts (misses self.old) (misses self.new) (faults self.old) (faults self.new) result };
}

impl From<AllocError> for ShelfFault {
    ghost use Rattle.std.specs.Prelude.{◌≡◌};
    ghost use Rattle.outside_io.specs.declared.shelf.ShelfFault.TheVariants.{Memory};

    ghost from_gives = { λ _ fault. fault ≡ Memory };

    fn from(_fault: AllocError) -> ShelfFault {
        ShelfFault::Memory
    }
}

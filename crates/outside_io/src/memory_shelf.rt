//! A shelf in memory whose fetches fail at chosen calls.
ghost use Rattle.std.specs.Prelude.{◌≡◌, ◌↔◌, ◌≤◌, ◌==◌, length, None, IfOk, IfSome, IsErrOf, IsTrue};
ghost use Rattle.std.specs.List.{list_any};
ghost use Rattle.outside_io.specs.HeldFiles.{are_distinct};
ghost use Rattle.outside_io.specs.MemoryShelves.{contents_of, failures_of, fresh_shelf, is_due};
ghost use Rattle.outside_io.specs.Shelves.{Counts, FailsAsTold, Fetches, later};
ghost use Rattle.outside_io.specs.declared.shelf.ShelfFault.TheVariants.{Absent};

use crate::count::raised;
use crate::held::{find, first};
use crate::{Held, Shelf, ShelfFault};
use base_kit::List;
use std::alloc::Global;

/// Files in memory, and the numbers of the fetches, counted from 0, that fail.
#[derive(Debug, Drop)]
pub struct MemoryShelf {
    held: List<Held>,
    failing: List<u32>,
    calls: u64,
    misses: u64,
    faults: u64,
}

impl MemoryShelf {
    /// A shelf of these files, before its first fetch. The fetches with the numbers in `failing` will fail.
    pub fn new(held: List<Held>, failing: List<u32>) -> MemoryShelf
        requires { IsTrue (are_distinct held) }
        ensures { result ≡ fresh_shelf held failing }
    {
        MemoryShelf {
            held,
            failing,
            calls: 0,
            misses: 0,
            faults: 0,
        }
    }
}

impl Shelf for MemoryShelf {
    ghost held = { contents_of };

    ghost fails = { failures_of };

    ghost misses = { λ shelf. shelf.misses };

    ghost faults = { λ shelf. shelf.faults };

    /// Fails at the fetches of the list, and at no other.
    fn fetch(&mut self, alloc: Global, name: &str, max: usize) -> Result<Vec<u8>, ShelfFault>
        ensures held { contents_of self.new ≡ contents_of self.old }
        ensures bound { IfOk result (λ bytes. length bytes.items ≤ max) }
        ensures found { IfOk result (λ bytes. IfSome (contents_of self.old) (Fetches bytes.items name.now max)) }
        ensures absent { IsErrOf result Absent → IfSome (contents_of self.old) (λ map. map name.now ≡ None) }
        ensures failed { FailsAsTold (failures_of self.old) result }
        ensures later { failures_of self.new ≡ later (failures_of self.old) }
        ensures counts { Counts self.old.misses self.new.misses self.old.faults self.new.faults result }

        // Also where memory is wanting.
        ensures due { IsErrOf result ShelfFault.Failed ↔ IsTrue (is_due self.old 0) }
    {
        let due = is_among(self.failing.as_slice(), self.calls);
        self.calls = raised(self.calls);
        if due {
            self.faults = raised(self.faults);
            return Err(ShelfFault::Failed);
        }
        match find(self.held.as_slice(), name) {
            Some(bytes) => first(alloc, bytes, max),
            None => {
                self.misses = raised(self.misses);
                Err(ShelfFault::Absent)
            }
        }
    }
}

/// Whether the call is one of these.
fn is_among(calls: &[u32], call: u64) -> bool
    ensures { result ≡ list_any (λ one. one == call) calls.now }
{
    calls.iter().any(|one| *one as u64 == call)
}

//! A shelf in memory whose fetches never fail.
ghost use Rattle.std.specs.Prelude.{◌≡◌, IsTrue, Some, false};
ghost use Rattle.outside_io.specs.HeldFiles.{are_distinct};
ghost use Rattle.outside_io.specs.SureShelves.{contents_of, fresh_shelf};

use crate::count::raised;
use crate::held::{find, first};
use crate::{Held, Shelf, ShelfFault};
use base_kit::List;
use std::alloc::Global;

/// Files in memory. A fetch is never `Failed`, and the count of faults is always 0.
#[derive(Debug, Drop)]
pub struct SureShelf {
    held: List<Held>,
    misses: u64,
}

impl SureShelf {
    /// A shelf of these files, before its first fetch.
    pub fn new(held: List<Held>) -> SureShelf
        requires { IsTrue (are_distinct held) }
        ensures { result ≡ fresh_shelf held }
    {
        SureShelf { held, misses: 0 }
    }
}

impl Shelf for SureShelf {
    ghost held = { contents_of };

    ghost fails = { λ _. Some (λ _. false) };

    ghost misses = { λ shelf. shelf.misses };

    ghost faults = { λ _. 0 };

    fn fetch(&mut self, alloc: Global, name: &str, max: usize) -> Result<Vec<u8>, ShelfFault> {
        match find(self.held.as_slice(), name) {
            Some(bytes) => first(alloc, bytes, max),
            None => {
                self.misses = raised(self.misses);
                Err(ShelfFault::Absent)
            }
        }
    }
}

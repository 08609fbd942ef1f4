//! A sink in memory whose writes never fail.
ghost use Rattle.std.specs.Prelude.{◌≡◌, Some, []};
ghost use Rattle.outside_io.specs.SureSinks.{written_to};

use crate::append::append;
use crate::{Sink, SinkFault};
use std::alloc::Global;

/// Text in memory. A call is never `Failed`, and the count of faults is always 0; it can run out of memory.
#[derive(Debug, Drop)]
pub struct SureSink {
    written: Vec<u8>,
}

impl SureSink {
    /// An empty sink.
    pub fn new(alloc: Global) -> SureSink
        ensures { written_to result ≡ Some [] }
    {
        SureSink {
            written: Vec::new(alloc),
        }
    }

    /// What was written.
    pub fn bytes(&self) -> &[u8]
        ensures { written_to self.now ≡ Some result.now }
    {
        self.written.as_slice()
    }
}

impl Sink for SureSink {
    ghost written = { written_to };

    ghost faults = { λ _. 0 };

    fn put(&mut self, _alloc: Global, piece: &[u8]) -> Result<(), SinkFault> {
        append(&mut self.written, piece)
    }
}

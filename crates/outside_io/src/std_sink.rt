//! The system's standard output as a sink.
ghost use Rattle.std.specs.Prelude.{◌≡◌, ℕ, IsTrue, take};
ghost use Rattle.std.specs.Io.KnownBytes.{Appends};

use crate::count::raised;
use crate::{Sink, SinkFault};
use std::alloc::Global;
use std::io::Write;

/// A writer as a sink, mostly standard output. What was written is told where the writer tells what it holds, which
/// standard output does not. A piece may take several calls of the writer; an error, or a call that takes no byte, is a fault.
#[derive(Debug, Drop)]
pub struct StdSink<W: Write> {
    inner: W,
    faults: u64,
}

impl<W: Write> StdSink<W> {
    /// A sink that writes to `inner`. Its count is 0.
    pub fn new(inner: W) -> StdSink<W>
        ensures inner { result.inner ≡ inner }
        ensures faults { result.faults ≡ 0 }
    {
        StdSink { inner, faults: 0 }
    }
}

impl<W: Write> Sink for StdSink<W> {
    ghost written = { λ sink. W.contents sink.inner };

    ghost faults = { λ sink. sink.faults };

    fn put(&mut self, _alloc: Global, piece: &[u8]) -> Result<(), SinkFault> {
        if write_whole(&mut self.inner, piece) {
            return Ok(());
        }
        self.faults = raised(self.faults);
        Err(SinkFault::Failed)
    }
}

/// Whether the whole piece was written.
fn write_whole<W: Write>(inner: &mut W, piece: &[u8]) -> bool
    ensures whole { IsTrue result → Appends (W.contents inner.old) (W.contents inner.new) piece.now }
    ensures part { (n : ℕ) × Appends (W.contents inner.old) (W.contents inner.new) (take n piece.now) }
{
    let mut done = 0;
    while done < piece.len() {
        match inner.write(&piece[done..]) {
            Ok(0) | Err(_) => return false,
            Ok(count) => done += count,
        }
    }
    true
}

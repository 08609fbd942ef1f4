//! A sink in memory whose writes fail at chosen calls.
ghost use Rattle.std.specs.Prelude.{◌≡◌, ◌<◌, ◌+◌, ◌-◌, ◌^◌, min, length, Some, None, IfSome, IfNone, OnOk, IsErrOf, IsTrue};
ghost use Rattle.outside_io.specs.MemorySinks as spec;
ghost use Rattle.outside_io.specs.Sinks.{Counts, Puts};

use crate::append::append;
use crate::count::raised;
use crate::{Sink, SinkFault};
use base_kit::List;
use std::alloc::Global;

/// A call of `put`, counted from 0, that fails: it appends the first `taken` bytes of its piece, or all of a shorter one.
#[derive(Clone, Copy, Debug, PartialEq, Eq)]
pub struct FailPut {
    pub call: u32,
    pub taken: u32,
}

/// Text in memory, and the calls of `put` that fail.
#[derive(Debug, Drop)]
pub struct MemorySink {
    written: Vec<u8>,
    failing: List<FailPut>,
    calls: u64,
    faults: u64,
}

impl MemorySink {
    /// An empty sink, before its first call. The calls in `failing` will fail.
    pub fn new(alloc: Global, failing: List<FailPut>) -> MemorySink
        requires { IsTrue (spec.are_distinct failing) }
        ensures { spec.IsFresh failing result }
    {
        MemorySink {
            written: Vec::new(alloc),
            failing,
            calls: 0,
            faults: 0,
        }
    }

    /// What was written.
    pub fn bytes(&self) -> &[u8]
        ensures { spec.written_to self.now ≡ Some result.now }
    {
        self.written.as_slice()
    }
}

impl Sink for MemorySink {
    ghost written = { spec.written_to };

    ghost faults = { λ sink. sink.faults };

    /// Fails at the calls of the list, each of which appends as much as the list says, and at no other.
    fn put(&mut self, _alloc: Global, piece: &[u8]) -> Result<(), SinkFault>
        requires { 0 < length piece.now }
        ensures written { Puts (spec.written_to self.old) (spec.written_to self.new) piece.now result }
        ensures counts { Counts self.old.faults self.new.faults result }

        ensures called { spec.Called self.old self.new }
        ensures whole { OnOk result (spec.due self.old ≡ None) }
        ensures cut { IsErrOf result SinkFault.Failed → spec.Cut (spec.due self.old) self.old self.new piece.now }
    {
        let due = taken_at(self.failing.as_slice(), self.calls);
        self.calls = raised(self.calls);
        match due {
            None => append(&mut self.written, piece),
            Some(taken) => {
                append(&mut self.written, &piece[..piece.len().min(taken as usize)])?;
                self.faults = raised(self.faults);
                Err(SinkFault::Failed)
            }
        }
    }
}

/// How much this call takes of its piece, where it is to fail.
fn taken_at(failing: &[FailPut], call: u64) -> Option<u32>
    ensures { result ≡ spec.taken_at failing.now call }
{
    for one in failing {
        if one.call as u64 == call {
            return Some(one.taken);
        }
    }
    None
}

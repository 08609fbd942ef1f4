//! Writes a text to the sink in pieces.

ghost use Rattle.outside_io.specs.Sinks.{Counts};
ghost use Rattle.tiresias_core.specs.Pieces.{WritesText};

use outside_io::{Sink, SinkFault};
use std::alloc::Global;

/// The size of every piece but the last.
pub(crate) const PIECE_BYTES: usize = 65_536;

/// Writes the whole text, piece by piece.
pub(crate) fn write_text<K: Sink>(alloc: Global, out: &mut K, text: &[u8]) -> Result<(), SinkFault>
    ensures written { WritesText (K.written out.old) (K.written out.new) text.now result }
    ensures counts { Counts (K.faults out.old) (K.faults out.new) result }
{
    let mut done = 0;
    while done < text.len() {
        let size = PIECE_BYTES.min(text.len() - done);
        if let Err(fault) = out.put(alloc, &text[done..done + size]) {
            return Err(fault);
        }
        done += size;
    }
    Ok(())
}

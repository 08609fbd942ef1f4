//! What both sinks in memory do.
ghost use Rattle.std.specs.Prelude.{◌≡◌, ◌++◌, OnOk, OnErr, IfErr};

use crate::SinkFault;

/// Appends a piece to what was written, where there is memory.
pub(crate) fn append(written: &mut Vec<u8>, piece: &[u8]) -> Result<(), SinkFault>
    ensures ok { OnOk result (written.new.items ≡ written.old.items ++ piece.now) }
    ensures err { OnErr result (written.new.items ≡ written.old.items) }
    ensures memory { IfErr result (λ fault. fault ≡ SinkFault.Memory) }
{
    Ok(written.extend_from_slice(piece)?)
}

//! Flushing output.
ghost use Rattle.std.specs.Prelude.{◌≡◌, true, IfErr, OnOk};
ghost use Rattle.std.specs.Io.KnownBytes.{Keeps};
ghost use Rattle.crack_row.specs.Devices.{device, has_failed};

use crack_row::{Refusal, Watched};
use std::io::Write;

/// Flushes what was written to the writer. Takes no memory. Refused with `WriteFault` if the writer fails.
pub fn flush<W: Write>(writer: &mut Watched<W>) -> Result<(), Refusal>
    ensures bytes { Keeps (W.contents (device writer.old)) (W.contents (device writer.new)) }
    ensures unfailed { OnOk result (has_failed writer.new ≡ has_failed writer.old) }
    ensures err { IfErr result (λ e. (e ≡ Refusal.WriteFault) × (has_failed writer.new ≡ true)) }
{
    writer.flush().map_err(|_| Refusal::WriteFault)
}

//! Writing all of some bytes.
ghost use Rattle.crack_commands.specs.Texts.{Writes};

use crack_row::{Refusal, Watched};
use std::io::Write;

/// Writes all of the bytes, in as many calls of the writer as it needs, and doesn't flush. Takes no memory. Refused
/// with `WriteFault` if the writer fails or accepts no byte; then only a proper prefix of the bytes is written.
pub fn send<W: Write>(writer: &mut Watched<W>, bytes: &[u8]) -> Result<(), Refusal>
    ensures { Writes W.contents bytes.now result writer.old writer.new }
{
    let mut done = 0;
    'sending: while done < bytes.len() {
        match writer.write(&bytes[done..]) {
            Ok(count) if count > 0 => done += count,
            _ => return Err(Refusal::WriteFault),
        }
    }
    Ok(())
}

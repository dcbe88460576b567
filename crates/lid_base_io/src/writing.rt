//! Writing all of a text.

ghost use Rattle.std.specs.Prelude.{◌≡◌, ◌≤◌, OnOk, OnErr};
ghost use Rattle.lid_base.specs.Outside.{Rose, Appended, AppendedPrefix, Came, CamePrefix};
ghost use Rattle.lid_base_io.specs.Calls.{pieces_of, CameJoined, CameJoinedPrefix};

use lid_base::{Sink, SinkFailed};

/// How many bytes are written at a time.
pub(crate) const PIECE: usize = 65_536;

/// Writes a text in pieces of 65,536 bytes, the last of which may be shorter and is not empty.
///
/// # Errors
/// A write fails only where the count of the sink rose in this call; a prefix of the text was then
/// written, by some first of its pieces.
pub fn write_all<O: Sink>(out: &mut O, text: &[u8]) -> Result<(), SinkFailed>
    ensures ok { OnOk result (Appended (O.written out.old) (O.written out.new) text.now) }
    ensures err { OnErr result (AppendedPrefix (O.written out.old) (O.written out.new) text.now) }
    ensures pieces { OnOk result (Came (O.pieces out.old) (O.pieces out.new) (pieces_of text.now)) }
    ensures begun { OnErr result (CamePrefix (O.pieces out.old) (O.pieces out.new) (pieces_of text.now)) }
    ensures still { OnOk result (O.faults out.new ≡ O.faults out.old) }
    ensures failed { OnErr result (Rose (O.faults out.old) (O.faults out.new)) }
    ensures grows { O.faults out.old ≤ O.faults out.new }
{
    let mut left = text;
    while !left.is_empty() {
        let (piece, rest) = left.split_at(PIECE.min(left.len()));
        let Ok(()) = out.write(piece) else {
            return Err(SinkFailed);
        };
        left = rest;
    }
    Ok(())
}

/// Writes a part of a line, as [`write_all`] does. The contracts of lines say of their pieces what they
/// make, one after the other.
pub(crate) fn tell_text<E: Sink>(err: &mut E, text: &[u8]) -> Result<(), SinkFailed>
    ensures ok { OnOk result (Appended (E.written err.old) (E.written err.new) text.now) }
    ensures err { OnErr result (AppendedPrefix (E.written err.old) (E.written err.new) text.now) }
    ensures pieces { OnOk result (CameJoined (E.pieces err.old) (E.pieces err.new) text.now) }
    ensures begun { OnErr result (CameJoinedPrefix (E.pieces err.old) (E.pieces err.new) text.now) }
    ensures failed { OnErr result (Rose (E.faults err.old) (E.faults err.new)) }
    ensures still { OnOk result (E.faults err.new ≡ E.faults err.old) }
    ensures grows { E.faults err.old ≤ E.faults err.new }
{
    write_all(err, text)
}

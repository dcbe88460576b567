//! The one line that tells a fault.

ghost use Rattle.std.specs.Prelude.{◌≡◌, ◌≤◌, ◌<◌, ◌∷◌, map, OnOk, OnErr};
ghost use Rattle.lid_base.specs.Outside.{Rose, Appended, AppendedPrefix};
ghost use Rattle.lid_base_io.specs.Calls.{CameJoined, CameJoinedPrefix};
ghost use Rattle.lid_base_io.specs.Telling.{fault_line, spelled};

use crate::paths::tell_path;
use crate::writing::tell_text;
use itoa::Buffer;
use lid_base::{Sink, SinkFailed};

/// A word of the line.
#[derive(Clone, Copy)]
pub enum Word<'a> {
    /// A word of the program.
    Text(&'a str),
    /// A name, as it stands.
    Name(&'a [u8]),
    /// A number, in decimal.
    Number(u64),
    /// The instance numbers of a path from the root's on, in decimal and joined by `/`, or `-` where
    /// there are none.
    Path(&'a [u32]),
}

/// Writes `lid:`, the words, each after a blank, and a newline. It takes no memory.
///
/// # Errors
/// A write fails only where the count of the sink rose in this call; a prefix of the line was then
/// written. The pieces of the writes make the line, or a first part of it where one failed.
pub fn tell<E: Sink>(err: &mut E, words: &[Word<'_>]) -> Result<(), SinkFailed>
    ensures ok { OnOk result (Appended (E.written err.old) (E.written err.new) (fault_line (map spelled words.now))) }
    ensures err { OnErr result (AppendedPrefix (E.written err.old) (E.written err.new) (fault_line (map spelled words.now))) }
    ensures pieces { OnOk result (CameJoined (E.pieces err.old) (E.pieces err.new) (fault_line (map spelled words.now))) }
    ensures begun { OnErr result (CameJoinedPrefix (E.pieces err.old) (E.pieces err.new) (fault_line (map spelled words.now))) }
    ensures failed { OnErr result (Rose (E.faults err.old) (E.faults err.new)) }
    ensures still { OnOk result (E.faults err.new ≡ E.faults err.old) }
    ensures grows { E.faults err.old ≤ E.faults err.new }
{
    let Ok(()) = tell_text(err, b"lid:") else {
        return Err(SinkFailed);
    };
    for word in words {
        let Ok(()) = tell_word(err, *word) else {
            return Err(SinkFailed);
        };
    }
    tell_text(err, b"\n")
}

fn tell_word<E: Sink>(err: &mut E, word: Word<'_>) -> Result<(), SinkFailed>
    ensures ok { OnOk result (Appended (E.written err.old) (E.written err.new) (32 ∷ spelled word.entry)) }
    ensures err { OnErr result (AppendedPrefix (E.written err.old) (E.written err.new) (32 ∷ spelled word.entry)) }
    ensures pieces { OnOk result (CameJoined (E.pieces err.old) (E.pieces err.new) (32 ∷ spelled word.entry)) }
    ensures begun { OnErr result (CameJoinedPrefix (E.pieces err.old) (E.pieces err.new) (32 ∷ spelled word.entry)) }
    ensures failed { OnErr result (Rose (E.faults err.old) (E.faults err.new)) }
    ensures still { OnOk result (E.faults err.new ≡ E.faults err.old) }
    ensures grows { E.faults err.old ≤ E.faults err.new }
{
    let Ok(()) = tell_text(err, b" ") else {
        return Err(SinkFailed);
    };
    tell_spelled(err, word)
}

fn tell_spelled<E: Sink>(err: &mut E, word: Word<'_>) -> Result<(), SinkFailed>
    ensures ok { OnOk result (Appended (E.written err.old) (E.written err.new) (spelled word.entry)) }
    ensures err { OnErr result (AppendedPrefix (E.written err.old) (E.written err.new) (spelled word.entry)) }
    ensures pieces { OnOk result (CameJoined (E.pieces err.old) (E.pieces err.new) (spelled word.entry)) }
    ensures begun { OnErr result (CameJoinedPrefix (E.pieces err.old) (E.pieces err.new) (spelled word.entry)) }
    ensures failed { OnErr result (Rose (E.faults err.old) (E.faults err.new)) }
    ensures still { OnOk result (E.faults err.new ≡ E.faults err.old) }
    ensures grows { E.faults err.old ≤ E.faults err.new }
{
    match word {
        Word::Text(text) => tell_text(err, text.as_bytes()),
        Word::Name(name) => tell_text(err, name),
        Word::Number(number) => tell_text(err, Buffer::new().format(number).as_bytes()),
        Word::Path(path) => tell_path(err, path),
    }
}

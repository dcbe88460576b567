//! Paths of instances in a line.

ghost use Rattle.std.specs.Prelude.{◌≡◌, ◌≤◌, ◌∷◌, OnOk, OnErr};
ghost use Rattle.std.specs.Fmt.{decimal};
ghost use Rattle.lid_base.specs.Outside.{Rose, Appended, AppendedPrefix};
ghost use Rattle.lid_base_io.specs.Calls.{CameJoined, CameJoinedPrefix};
ghost use Rattle.lid_base_io.specs.Telling.{path_text, steps_text};

use crate::writing::tell_text;
use itoa::Buffer;
use lid_base::{Sink, SinkFailed};

/// Writes the instance numbers of a path, joined by `/`, or `-` where there are none.
pub fn tell_path<E: Sink>(err: &mut E, path: &[u32]) -> Result<(), SinkFailed>
    ensures ok { OnOk result (Appended (E.written err.old) (E.written err.new) (path_text path.now)) }
    ensures err { OnErr result (AppendedPrefix (E.written err.old) (E.written err.new) (path_text path.now)) }
    ensures pieces { OnOk result (CameJoined (E.pieces err.old) (E.pieces err.new) (path_text path.now)) }
    ensures begun { OnErr result (CameJoinedPrefix (E.pieces err.old) (E.pieces err.new) (path_text path.now)) }
    ensures failed { OnErr result (Rose (E.faults err.old) (E.faults err.new)) }
    ensures still { OnOk result (E.faults err.new ≡ E.faults err.old) }
    ensures grows { E.faults err.old ≤ E.faults err.new }
{
    match path.split_first() {
        None => tell_text(err, b"-"),
        Some((first, steps)) => {
            let Ok(()) = tell_number(err, *first) else {
                return Err(SinkFailed);
            };
            tell_steps(err, steps)
        }
    }
}

fn tell_steps<E: Sink>(err: &mut E, steps: &[u32]) -> Result<(), SinkFailed>
    ensures ok { OnOk result (Appended (E.written err.old) (E.written err.new) (steps_text steps.now)) }
    ensures err { OnErr result (AppendedPrefix (E.written err.old) (E.written err.new) (steps_text steps.now)) }
    ensures pieces { OnOk result (CameJoined (E.pieces err.old) (E.pieces err.new) (steps_text steps.now)) }
    ensures begun { OnErr result (CameJoinedPrefix (E.pieces err.old) (E.pieces err.new) (steps_text steps.now)) }
    ensures failed { OnErr result (Rose (E.faults err.old) (E.faults err.new)) }
    ensures still { OnOk result (E.faults err.new ≡ E.faults err.old) }
    ensures grows { E.faults err.old ≤ E.faults err.new }
{
    for step in steps {
        let Ok(()) = tell_step(err, *step) else {
            return Err(SinkFailed);
        };
    }
    Ok(())
}

fn tell_step<E: Sink>(err: &mut E, step: u32) -> Result<(), SinkFailed>
    ensures ok { OnOk result (Appended (E.written err.old) (E.written err.new) (47 ∷ decimal step)) }
    ensures err { OnErr result (AppendedPrefix (E.written err.old) (E.written err.new) (47 ∷ decimal step)) }
    ensures pieces { OnOk result (CameJoined (E.pieces err.old) (E.pieces err.new) (47 ∷ decimal step)) }
    ensures begun { OnErr result (CameJoinedPrefix (E.pieces err.old) (E.pieces err.new) (47 ∷ decimal step)) }
    ensures failed { OnErr result (Rose (E.faults err.old) (E.faults err.new)) }
    ensures still { OnOk result (E.faults err.new ≡ E.faults err.old) }
    ensures grows { E.faults err.old ≤ E.faults err.new }
{
    let Ok(()) = tell_text(err, b"/") else {
        return Err(SinkFailed);
    };
    tell_number(err, step)
}

fn tell_number<E: Sink>(err: &mut E, number: u32) -> Result<(), SinkFailed>
    ensures ok { OnOk result (Appended (E.written err.old) (E.written err.new) (decimal number)) }
    ensures err { OnErr result (AppendedPrefix (E.written err.old) (E.written err.new) (decimal number)) }
    ensures pieces { OnOk result (CameJoined (E.pieces err.old) (E.pieces err.new) (decimal number)) }
    ensures begun { OnErr result (CameJoinedPrefix (E.pieces err.old) (E.pieces err.new) (decimal number)) }
    ensures failed { OnErr result (Rose (E.faults err.old) (E.faults err.new)) }
    ensures still { OnOk result (E.faults err.new ≡ E.faults err.old) }
    ensures grows { E.faults err.old ≤ E.faults err.new }
{
    tell_text(err, Buffer::new().format(number).as_bytes())
}

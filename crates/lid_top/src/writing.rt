//! Texts that are written whole.

ghost use Rattle.std.specs.Prelude.{◌≡◌, [], OnOk, OnErr, IfErr};
ghost use Rattle.lid_base.specs.Outside.{Rose, Appended, AppendedPrefix, Came, CamePrefix};
ghost use Rattle.lid_base_io.specs.Calls.{pieces_of};
ghost use Rattle.lid_top_script.specs.Causes.{IsStoppedJob};

use lid_base::{Sink, SinkFailed};
use lid_base_io::PieceWriter;
use lid_top_script::{JobEnd, Stop};
use std::alloc::Global;

/// Writes the output of a job, in its pieces. Its room is taken before the first byte is written.
pub(crate) fn write_text<'a, O: Sink>(
    alloc: Global,
    out: &mut O,
    text: &[u8],
) -> Result<(), JobEnd<'a>>
    ensures ok { OnOk result (Appended (O.written out.old) (O.written out.new) text.now) }
    ensures pieces { OnOk result (Came (O.pieces out.old) (O.pieces out.new) (pieces_of text.now)) }
    ensures still { OnOk result (O.faults out.new ≡ O.faults out.old) }
    ensures stopped { IfErr result (λ end. IsStoppedJob end → (end ≡ JobEnd.Stopped Stop.Memory) × (out.new ≡ out.old)) }
    ensures unwritten { IfErr result (λ end. (end ≡ JobEnd.Unwritten) → Rose (O.faults out.old) (O.faults out.new)
        × AppendedPrefix (O.written out.old) (O.written out.new) text.now × CamePrefix (O.pieces out.old) (O.pieces out.new) (pieces_of text.now)) }
{
    let Ok(mut writer) = PieceWriter::start(alloc) else {
        return Err(JobEnd::Stopped(Stop::Memory));
    };
    match write_pieces(&mut writer, out, text) {
        Ok(()) => Ok(()),
        Err(_) => Err(JobEnd::Unwritten),
    }
}

/// Writes a text in pieces by a writer that holds nothing.
fn write_pieces<O: Sink>(
    writer: &mut PieceWriter,
    out: &mut O,
    text: &[u8],
) -> Result<(), SinkFailed>
    requires { writer.old ≡ [] }
    ensures ok { OnOk result (Appended (O.written out.old) (O.written out.new) text.now) }
    ensures err { OnErr result (AppendedPrefix (O.written out.old) (O.written out.new) text.now) }
    ensures pieces { OnOk result (Came (O.pieces out.old) (O.pieces out.new) (pieces_of text.now)) }
    ensures begun { OnErr result (CamePrefix (O.pieces out.old) (O.pieces out.new) (pieces_of text.now)) }
    ensures still { OnOk result (O.faults out.new ≡ O.faults out.old) }
    ensures failed { OnErr result (Rose (O.faults out.old) (O.faults out.new)) }
{
    let Ok(()) = writer.push(out, text) else {
        return Err(SinkFailed);
    };
    writer.finish(out)
}

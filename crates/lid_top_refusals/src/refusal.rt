//! Why a reading, a check or a limit refuses, and the lines that say so and say the other statuses.

ghost use Rattle.lid_top_refusals.specs.Faults.{usage_line, read_line, write_line, memory_line, denied_line};
ghost use Rattle.lid_top_refusals.specs.Refusals.{refusal_line};
ghost use Rattle.lid_top_refusals.specs.Saying.{Says};

use crate::saying::{say, say_told};
use crate::told::{
    told_of_blif, told_of_cert, told_of_check, told_of_dump, told_of_emit, told_of_gen,
    told_of_net, told_of_place, told_of_rows, told_of_schedule, told_of_stalls, told_of_trace,
};
use lid_base::Sink;
use lid_base_io::Word;
use lid_blif::BlifFault;
use lid_cert_text::CertFault;
use lid_check_rules::CheckFault;
use lid_emit_meaning::EmitFault;
use lid_gen::GenFault;
use lid_net_channels::NetFault;
use lid_stall_text::StallFault;
use lid_stations_text::PlaceFault;
use lid_texts::VecFault;
use lid_texts_runs::{SchedFault, TraceFault};
use lid_vcd::VcdFault;

/// Why a reading, a check or a limit refuses.
#[derive(Drop)]
pub enum Refusal {
    Blif(BlifFault),
    Check(CheckFault),
    Net(NetFault),
    Rows(VecFault),
    Stations(PlaceFault),
    Cert(CertFault),
    Trace(TraceFault),
    Stalls(StallFault),
    Schedule(SchedFault),
    Vcd(VcdFault),
    Gen(GenFault),
    Emit(EmitFault),
}

/// Says the line of a refusal.
pub fn say_refusal<E: Sink>(err: &mut E, refusal: &Refusal)
    ensures { Says E.written E.pieces E.faults err.old err.new (refusal_line refusal.now) }
{
    match refusal {
        Refusal::Blif(fault) => say_told(err, "blif", told_of_blif(*fault)),
        Refusal::Check(fault) => say_told(err, "check", told_of_check(fault)),
        Refusal::Net(fault) => say_told(err, "net", told_of_net(*fault)),
        Refusal::Rows(fault) => say_told(err, "rows", told_of_rows(*fault)),
        Refusal::Stations(fault) => say_told(err, "stations", told_of_place(*fault)),
        Refusal::Cert(fault) => say_told(err, "cert", told_of_cert(*fault)),
        Refusal::Trace(fault) => say_told(err, "trace", told_of_trace(*fault)),
        Refusal::Stalls(fault) => say_told(err, "stalls", told_of_stalls(*fault)),
        Refusal::Schedule(fault) => say_told(err, "schedule", told_of_schedule(*fault)),
        Refusal::Vcd(fault) => say_told(err, "vcd", told_of_dump(*fault)),
        Refusal::Gen(fault) => say_told(err, "gen", told_of_gen(*fault)),
        Refusal::Emit(fault) => say_told(err, "emit", told_of_emit(fault)),
    }
}

/// Says that the words are no job.
pub fn say_usage<E: Sink>(err: &mut E)
    ensures { Says E.written E.pieces E.faults err.old err.new usage_line }
{
    say(err, &[Word::Text("usage")]);
}

/// Says which file could not be read.
pub fn say_read<E: Sink>(err: &mut E, file: &str)
    ensures { Says E.written E.pieces E.faults err.old err.new (read_line file.now) }
{
    say(err, &[Word::Text("read"), Word::Text(file)]);
}

/// Says that the output could not be written.
pub fn say_write<E: Sink>(err: &mut E)
    ensures { Says E.written E.pieces E.faults err.old err.new write_line }
{
    say(err, &[Word::Text("write")]);
}

/// Says that there was no memory.
pub fn say_memory<E: Sink>(err: &mut E)
    ensures { Says E.written E.pieces E.faults err.old err.new memory_line }
{
    say(err, &[Word::Text("memory")]);
}

/// Says that the certificate is none of the graph.
pub fn say_denied<E: Sink>(err: &mut E)
    ensures { Says E.written E.pieces E.faults err.old err.new denied_line }
{
    say(
        err,
        &[
            Word::Text("not"),
            Word::Text("a"),
            Word::Text("certificate"),
        ],
    );
}

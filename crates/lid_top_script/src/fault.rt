//! Why a job does not end with its whole output.

ghost use Rattle.std.specs.Prelude.{◌≡◌};
ghost use Rattle.lid_top_script.specs.Causes.{stop_of_blif, stop_of_rows, stop_of_check, stop_of_net, stop_of_place, stop_of_cert, stop_of_stalls, stop_of_schedule, stop_of_dump, stop_of_gen, stop_of_emit};

use lid_blif::BlifFault;
use lid_cert_text::CertFault;
use lid_check::CheckFault;
use lid_emit_meaning::EmitFault;
use lid_gen::GenFault;
use lid_net::NetFault;
use lid_stall_text::StallFault;
use lid_stations_text::PlaceFault;
use lid_texts::{SchedFault, VecFault};
use lid_top_refusals::Refusal;
use lid_vcd::VcdFault;

/// Why the output of a job is not known.
#[derive(Drop)]
pub enum Stop<'a> {
    Refused(Refusal),
    /// A fetch of this file failed.
    Read(&'a str),
    /// There was no memory.
    Memory,
    /// The certificate is none of the graph.
    Denied,
}

/// Why a job did not end with its whole output.
#[derive(Drop)]
pub enum JobEnd<'a> {
    Stopped(Stop<'a>),
    /// A write failed.
    Unwritten,
}

/// Why a BLIF text gives no design.
pub fn blif_stop<'a>(fault: BlifFault) -> Stop<'a>
    ensures { result ≡ stop_of_blif fault }
{
    match fault {
        BlifFault::Memory => Stop::Memory,
        _ => Stop::Refused(Refusal::Blif(fault)),
    }
}

/// Why a rows text gives no rows.
pub fn rows_stop<'a>(fault: VecFault) -> Stop<'a>
    ensures { result ≡ stop_of_rows fault }
{
    match fault {
        VecFault::Memory => Stop::Memory,
        _ => Stop::Refused(Refusal::Rows(fault)),
    }
}

/// Why a design is not accepted.
pub fn check_stop<'a>(fault: CheckFault) -> Stop<'a>
    ensures { result ≡ stop_of_check fault }
{
    match fault {
        CheckFault::Memory => Stop::Memory,
        _ => Stop::Refused(Refusal::Check(fault)),
    }
}

/// Why a design has no system.
pub fn net_stop<'a>(fault: NetFault) -> Stop<'a>
    ensures { result ≡ stop_of_net fault }
{
    match fault {
        NetFault::Memory => Stop::Memory,
        _ => Stop::Refused(Refusal::Net(fault)),
    }
}

/// Why a text of stations or wires gives no placement.
pub fn place_stop<'a>(fault: PlaceFault) -> Stop<'a>
    ensures { result ≡ stop_of_place fault }
{
    match fault {
        PlaceFault::Memory => Stop::Memory,
        _ => Stop::Refused(Refusal::Stations(fault)),
    }
}

/// Why a text gives no certificate.
pub fn cert_stop<'a>(fault: CertFault) -> Stop<'a>
    ensures { result ≡ stop_of_cert fault }
{
    match fault {
        CertFault::Memory => Stop::Memory,
        _ => Stop::Refused(Refusal::Cert(fault)),
    }
}

/// Why a text gives no stalls.
pub fn stalls_stop<'a>(fault: StallFault) -> Stop<'a>
    ensures { result ≡ stop_of_stalls fault }
{
    match fault {
        StallFault::Memory => Stop::Memory,
        _ => Stop::Refused(Refusal::Stalls(fault)),
    }
}

/// Why a text gives no schedule.
pub fn schedule_stop<'a>(fault: SchedFault) -> Stop<'a>
    ensures { result ≡ stop_of_schedule fault }
{
    match fault {
        SchedFault::Memory => Stop::Memory,
        _ => Stop::Refused(Refusal::Schedule(fault)),
    }
}

/// Why a dump gives no trace.
pub fn dump_stop<'a>(fault: VcdFault) -> Stop<'a>
    ensures { result ≡ stop_of_dump fault }
{
    match fault {
        VcdFault::Memory => Stop::Memory,
        _ => Stop::Refused(Refusal::Vcd(fault)),
    }
}

/// Why there is no generated design.
pub fn gen_stop<'a>(fault: GenFault) -> Stop<'a>
    ensures { result ≡ stop_of_gen fault }
{
    match fault {
        GenFault::Memory => Stop::Memory,
        _ => Stop::Refused(Refusal::Gen(fault)),
    }
}

/// Why there is no emitted design.
pub fn emit_stop<'a>(fault: EmitFault) -> Stop<'a>
    ensures { result ≡ stop_of_emit fault }
{
    match fault {
        EmitFault::Memory => Stop::Memory,
        _ => Stop::Refused(Refusal::Emit(fault)),
    }
}

//! Whether a trace is small enough to be made.

ghost use Rattle.std.specs.Prelude.{◌≡◌, ◌*◌, ◌≤◌, OnOk, IfErr, IfSome};
ghost use Rattle.lid_stations.specs.Placements.{station_count};
ghost use Rattle.lid_top_script.specs.Scripts.{good, cells_read, trace_read};
ghost use Rattle.lid_top_script.specs.Causes.{Declines};

use crate::fault::Stop;
use crate::wrapped::Wrapped;
use lid_texts_runs::trace_fits;
use lid_top_refusals::Refusal;

/// Judges the cells of a trace of so many stations and cycles.
fn judge_cells<'a>(stations: u32, cycles: u64) -> Result<(), Stop<'a>>
    ensures ok { OnOk result (cells_read (stations * cycles) ≡ good tt) }
    ensures fits { OnOk result (stations * cycles ≤ 1048576) }
    ensures err { IfErr result (Declines (cells_read (stations * cycles))) }
{
    match trace_fits(stations, cycles) {
        Ok(()) => Ok(()),
        Err(fault) => Err(Stop::Refused(Refusal::Trace(fault))),
    }
}

/// Judges the trace of a run with such stations, where one is asked for. It takes no memory.
#[tactic(auto, unfolding(crate::specs::Scripts::trace_read))]
pub fn judge_trace<'a>(wrapped: &Wrapped, trace: &Option<u64>) -> Result<(), Stop<'a>>
    ensures ok { OnOk result (trace_read wrapped.now.placement trace.now ≡ good tt) }
    ensures fits { OnOk result (IfSome trace.now (λ cycles. station_count wrapped.now.placement.relays * cycles ≤ 1048576)) }
    ensures err { IfErr result (Declines (trace_read wrapped.now.placement trace.now)) }
{
    match trace {
        Some(cycles) => judge_cells(wrapped.placement.caps.len() as u32, *cycles),
        None => Ok(()),
    }
}

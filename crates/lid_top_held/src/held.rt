//! The steps of a run that holds its rows: from the netlist to the text.

ghost use Rattle.lid_top_script.specs.Scripts.{rows_step};
ghost use Rattle.lid_top_script.specs.Whole.{RunsOn};
ghost use Rattle.lid_top_held.specs.Runs.{fed_script, asked_script, IsSoundRun};

use crate::freeing::freed_text;
use crate::run::{Asked, Fed, HeldRun};
use crate::walking::walked_text;
use crate::waving::waved_text;
use lid_base::{Gate, Shelf};
use lid_top_script::{PackedText, Stop, Wrapped, read_file, read_wrapped};
use std::thread::Threads;

/// What is written once the rows are read.
fn fed_text<'a, R: Threads + AllocGlobal + Sync, S: Shelf, G: Gate>(
    rt: &R,
    gate: &G,
    shelf: &mut S,
    fed: &Fed<'_>,
    run: HeldRun<'a>,
) -> Result<Vec<u8>, Stop<'a>>
    requires { IsSoundRun run }
    ensures { RunsOn S.whole S.held S.fetches S.faults shelf.old shelf.new (fed_script run.entry fed.now.wrapped.now fed.now.rows.now.rows) result }
{
    match run {
        HeldRun::Walk(schedule) => walked_text(rt.alloc(), shelf, fed, schedule),
        HeldRun::Free {
            workers,
            rounds,
            tally,
        } => freed_text(rt, gate, fed, workers, rounds, tally),
        HeldRun::Wave(cycles) => waved_text(rt.alloc(), fed, cycles),
    }
}

/// What is written of a design with its system and stations.
fn wrapped_text<'a, R: Threads + AllocGlobal + Sync, S: Shelf, G: Gate>(
    rt: &R,
    gate: &G,
    shelf: &mut S,
    wrapped: &Wrapped,
    asked: &Asked<'a>,
) -> Result<Vec<u8>, Stop<'a>>
    requires { IsSoundRun asked.now.run }
    ensures { RunsOn S.whole S.held S.fetches S.faults shelf.old shelf.new
        (rows_step wrapped.now.design asked.now.vec.now (fed_script asked.now.run wrapped.now)) result }
{
    let checked = &wrapped.checked;
    match read_file(rt.alloc(), shelf, asked.vec, &PackedText { checked }) {
        Ok(rows) => {
            let fed = Fed {
                wrapped,
                rows: &rows,
            };
            fed_text(rt, gate, shelf, &fed, asked.run)
        }
        Err(stop) => Err(stop),
    }
}

/// What a run writes that holds its rows: along a schedule (`walk`), by free workers (`free`), or clock by clock
/// as a value change dump (`wave`).
///
/// # Errors
/// The first step that fails, in the order of the run's script. `Refused`: the netlist, its design, the number of
/// its channels, the stations, the rows, and then the schedule (`walk`) or the length of the trace (`wave`).
/// `Read`, with the file's name: a fetch failed. `Memory`: at any step. `Denied` does not come.
pub fn run_text<'a, R: Threads + AllocGlobal + Sync, S: Shelf, G: Gate>(
    rt: &R,
    gate: &G,
    shelf: &mut S,
    asked: &Asked<'a>,
) -> Result<Vec<u8>, Stop<'a>>
    requires { IsSoundRun asked.now.run }
    ensures { RunsOn S.whole S.held S.fetches S.faults shelf.old shelf.new (asked_script asked.now) result }
{
    match read_wrapped(rt.alloc(), shelf, &asked.files) {
        Ok(wrapped) => wrapped_text(rt, gate, shelf, &wrapped, asked),
        Err(stop) => Err(stop),
    }
}

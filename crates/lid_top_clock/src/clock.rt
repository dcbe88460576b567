//! `clock`: the clocked run of a netlist for rows of input bits, from its files to what is written. The rows are read
//! twice, and what the run tells is written as it goes.

ghost use Rattle.std.specs.Prelude.{◌≡◌, ◌<◌, Bool, List, OnOk, IfErr};
ghost use Rattle.lid_top_clock.specs.Clocking.{asked_script, after_stations, after_stalls, after_rows, after_trace, IsCounted};
ghost use Rattle.lid_top_script.specs.Early.{RunsEarly, FetchesEarly};
ghost use Rattle.lid_stall_text.specs.Holds.{Ascend, listed};
ghost use Rattle.lid_top_script.specs.Causes.{IsStoppedJob};

use crate::asked::{Asked, Given};
use crate::counting::count_rows;
use crate::stops::run_end;
use crate::task::Task;
use crate::whole::run;
use crate::workers::Workers;
use lid_base::{Gate, Items, Shelf, Sink};
use lid_stall_text::Stall;
use lid_stations::Placed;
use lid_texts_feed::RowFeed;
use lid_top_script::{JobEnd, Stop, Wrapped, judge_trace, read_job_stalls, read_wrapped};
use std::thread::Threads;

/// Runs `clock`: what it tells goes to `out`, as it runs.
///
/// # Errors
/// As the script of `clock` has them: the first fault of a file, in the order netlist, stations, stalls and rows,
/// a limit, or that memory is wanting; and a write that failed.
pub fn run_clock<'a, S: Shelf, O: Sink, R: Threads + AllocGlobal + Sync, G: Gate>(
    workers: &Workers<'_, R, G>,
    shelf: &mut S,
    out: &mut O,
    asked: &Asked<'a>,
) -> Result<(), JobEnd<'a>>
    requires some { 0 < workers.now.many }
    ensures ran { RunsEarly (S.held shelf.old) (asked_script asked.now)
        (S.faults shelf.old) (S.faults shelf.new) O.written O.pieces O.faults out.old out.new result }
    ensures fetched { FetchesEarly S.whole (S.held shelf.old) (asked_script asked.now)
        (S.fetches shelf.old) (S.fetches shelf.new) (S.faults shelf.old) (S.faults shelf.new) result }
    ensures still { OnOk result (O.faults out.new ≡ O.faults out.old) }
    ensures wanting { IfErr result (λ end. IsStoppedJob end → O.faults out.new ≡ O.faults out.old) }
    ensures kept { S.held shelf.new ≡ S.held shelf.old }
{
    match read_wrapped(workers.rt.alloc(), shelf, &asked.files) {
        Ok(wrapped) => run_wrapped(workers, shelf, out, &wrapped, asked),
        Err(stop) => Err(JobEnd::Stopped(stop)),
    }
}

/// Reads the stalls, and runs a design with its stations.
fn run_wrapped<'a, S: Shelf, O: Sink, R: Threads + AllocGlobal + Sync, G: Gate>(
    workers: &Workers<'_, R, G>,
    shelf: &mut S,
    out: &mut O,
    wrapped: &Wrapped,
    asked: &Asked<'a>,
) -> Result<(), JobEnd<'a>>
    requires some { 0 < workers.now.many }
    ensures ran { RunsEarly (S.held shelf.old) (after_stations asked.now wrapped.now)
        (S.faults shelf.old) (S.faults shelf.new) O.written O.pieces O.faults out.old out.new result }
    ensures fetched { FetchesEarly S.whole (S.held shelf.old) (after_stations asked.now wrapped.now)
        (S.fetches shelf.old) (S.fetches shelf.new) (S.faults shelf.old) (S.faults shelf.new) result }
    ensures still { OnOk result (O.faults out.new ≡ O.faults out.old) }
    ensures wanting { IfErr result (λ end. IsStoppedJob end → O.faults out.new ≡ O.faults out.old) }
    ensures kept { S.held shelf.new ≡ S.held shelf.old }
{
    match read_job_stalls(workers.rt.alloc(), shelf, asked.stalls) {
        Ok(stalls) => run_stalled(workers, shelf, out, wrapped, asked, stalls),
        Err(stop) => Err(JobEnd::Stopped(stop)),
    }
}

/// Reads and counts the rows, and runs for them.
fn run_stalled<'a, S: Shelf, O: Sink, R: Threads + AllocGlobal + Sync, G: Gate>(
    workers: &Workers<'_, R, G>,
    shelf: &mut S,
    out: &mut O,
    wrapped: &Wrapped,
    asked: &Asked<'a>,
    stalls: Option<Items<Stall>>,
) -> Result<(), JobEnd<'a>>
    requires some { 0 < workers.now.many }
    requires ascend { Ascend (listed stalls) }
    ensures ran { RunsEarly (S.held shelf.old) (after_stalls asked.now wrapped.now stalls)
        (S.faults shelf.old) (S.faults shelf.new) O.written O.pieces O.faults out.old out.new result }
    ensures fetched { FetchesEarly S.whole (S.held shelf.old) (after_stalls asked.now wrapped.now stalls)
        (S.fetches shelf.old) (S.fetches shelf.new) (S.faults shelf.old) (S.faults shelf.new) result }
    ensures still { OnOk result (O.faults out.new ≡ O.faults out.old) }
    ensures wanting { IfErr result (λ end. IsStoppedJob end → O.faults out.new ≡ O.faults out.old) }
    ensures kept { S.held shelf.new ≡ S.held shelf.old }
{
    match count_rows(workers.rt.alloc(), shelf, wrapped, asked.vec) {
        Ok(rows) => run_counted(workers, shelf, out, wrapped, asked, Given { rows, stalls }),
        Err(stop) => Err(JobEnd::Stopped(stop)),
    }
}

/// Judges the trace, and runs for rows that were read once.
fn run_counted<'a, S: Shelf, O: Sink, R: Threads + AllocGlobal + Sync, G: Gate>(
    workers: &Workers<'_, R, G>,
    shelf: &mut S,
    out: &mut O,
    wrapped: &Wrapped,
    asked: &Asked<'a>,
    given: Given,
) -> Result<(), JobEnd<'a>>
    requires some { 0 < workers.now.many }
    ensures ran { (rows : List (List Bool)) → IsCounted (S.held shelf.old) asked.now wrapped.now given.rows rows
        → RunsEarly (S.held shelf.old) (after_rows asked.now wrapped.now given.stalls rows)
        (S.faults shelf.old) (S.faults shelf.new) O.written O.pieces O.faults out.old out.new result }
    ensures fetched { (rows : List (List Bool)) → IsCounted (S.held shelf.old) asked.now wrapped.now given.rows rows
        → FetchesEarly S.whole (S.held shelf.old) (after_rows asked.now wrapped.now given.stalls rows)
        (S.fetches shelf.old) (S.fetches shelf.new) (S.faults shelf.old) (S.faults shelf.new) result }
    ensures still { OnOk result (O.faults out.new ≡ O.faults out.old) }
    ensures wanting { IfErr result (λ end. IsStoppedJob end → O.faults out.new ≡ O.faults out.old) }
    ensures kept { S.held shelf.new ≡ S.held shelf.old }
{
    match judge_trace(wrapped, &asked.trace) {
        Ok(()) => run_again(workers, shelf, out, wrapped, asked, given),
        Err(stop) => Err(JobEnd::Stopped(stop)),
    }
}

/// Runs clock by clock, for rows that were read once. They are fetched again as they are needed, and what the run
/// tells is written as it goes.
fn run_again<'a, S: Shelf, O: Sink, R: Threads + AllocGlobal + Sync, G: Gate>(
    workers: &Workers<'_, R, G>,
    shelf: &mut S,
    out: &mut O,
    wrapped: &Wrapped,
    asked: &Asked<'a>,
    given: Given,
) -> Result<(), JobEnd<'a>>
    requires some { 0 < workers.now.many }
    ensures ran { (rows : List (List Bool)) → IsCounted (S.held shelf.old) asked.now wrapped.now given.rows rows
        → RunsEarly (S.held shelf.old) (after_trace asked.now wrapped.now given.stalls rows)
        (S.faults shelf.old) (S.faults shelf.new) O.written O.pieces O.faults out.old out.new result }
    ensures fetched { (rows : List (List Bool)) → IsCounted (S.held shelf.old) asked.now wrapped.now given.rows rows
        → FetchesEarly S.whole (S.held shelf.old) (after_trace asked.now wrapped.now given.stalls rows)
        (S.fetches shelf.old) (S.fetches shelf.new) (S.faults shelf.old) (S.faults shelf.new) result }
    ensures still { OnOk result (O.faults out.new ≡ O.faults out.old) }
    ensures wanting { IfErr result (λ end. IsStoppedJob end → O.faults out.new ≡ O.faults out.old) }
    ensures kept { S.held shelf.new ≡ S.held shelf.old }
{
    let checked = &wrapped.checked;
    let Given { rows, stalls } = given;
    let alloc = workers.rt.alloc();
    let outs = checked.outputs().len() as u32;
    let Ok(mut feed) = RowFeed::start(alloc, asked.vec, checked.inputs(), outs) else {
        return Err(JobEnd::Stopped(Stop::Memory));
    };
    let _ = checked.design();
    let placed = Placed {
        system: &wrapped.system,
        placement: &wrapped.placement,
    };
    let task = Task {
        placed: &placed,
        columns: checked.outputs(),
        rows,
        trace: asked.trace,
    };
    match run(shelf, out, &task, &mut feed, stalls, workers) {
        Ok(()) => Ok(()),
        Err(fault) => Err(run_end(asked.vec, rows, fault)),
    }
}

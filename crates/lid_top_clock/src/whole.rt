//! Running a system over the rows of a file, and telling it as it goes.

ghost use Rattle.std.specs.Prelude.{◌≡◌, ℕ, ◌<◌, ◌≤◌, Bool, List, [], length, Option, OnOk, IfErr};
ghost use Rattle.lid_base.specs.declared.outside.Fetch.{Fetch};
ghost use Rattle.lid_base.specs.Outside.{Rose};
ghost use Rattle.lid_texts_feed.specs.Fetching.{HasGiven};
ghost use Rattle.lid_top_clock.specs.Pushing.{UnlessWrite};
ghost use Rattle.lid_top_clock.specs.Runnings.{ClockRun, run_by, source_columns, HasRun, HasStopped};
ghost use Rattle.lid_top_clock.specs.Stepping.{IsFed, IsRunOf};
ghost use Rattle.lid_top_clock.specs.Refetching.{FedBy, RunFetches};
ghost use Rattle.lid_stall_text.specs.Holds.{Ascend, listed};

use crate::fault::RunFault;
use crate::lines::Telling;
use crate::steps::Running;
use crate::task::Task;
use crate::workers::Workers;
use lid_base::{Gate, Items, Shelf, Sink};
use lid_stall::Stall;
use lid_texts_feed::RowFeed;
use std::thread::Threads;

/// A task, and who makes its cycles.
#[derive(Drop)]
struct Staffed<'a, R, G> {
    task: &'a Task<'a>,
    workers: &'a Workers<'a, R, G>,
}

/// Tells a run that has begun: the header, each output row after the cycle in which the sink fired for
/// it, and the end.
fn tell_run<S: Shelf, O: Sink, R: Threads + Sync, G: Gate>(
    shelf: &mut S,
    out: &mut O,
    staffed: &Staffed<'_, R, G>,
    feed: &mut RowFeed,
    run: &mut Running,
    telling: &mut Telling,
) -> Result<(), RunFault>
    requires some { 0 < staffed.now.workers.now.many }
    requires fed { (r : ClockRun) × (given : List (List Bool)) × IsRunOf r staffed.now.task.now.placed.now.system staffed.now.task.now.columns.now
        × IsFed r (S.held shelf.old feed.old.name) run.old feed.old given }
    requires none { run.old.made ≡ 0 }
    requires line { telling.old.line.items ≡ [] }
    requires held { telling.old.writer ≡ [] }
    ensures ok { (r : ClockRun) (given : List (List Bool)) → IsRunOf r staffed.now.task.now.placed.now.system staffed.now.task.now.columns.now
        → IsFed r (S.held shelf.old feed.old.name) run.old feed.old given
        → OnOk result (HasRun r O.written O.pieces out.old out.new) }
    ensures err { (r : ClockRun) (given : List (List Bool)) → IsRunOf r staffed.now.task.now.placed.now.system staffed.now.task.now.columns.now
        → IsFed r (S.held shelf.old feed.old.name) run.old feed.old given
        → IfErr result (HasStopped r O.written O.pieces out.old out.new
        (Rose (S.faults shelf.old feed.old.name) (S.faults shelf.new feed.old.name)) (Rose (O.faults out.old) (O.faults out.new))) }
    ensures fetched { (r : ClockRun) (given : List (List Bool)) (first : Option (List Fetch))
        → IsRunOf r staffed.now.task.now.placed.now.system staffed.now.task.now.columns.now
        → IsFed r (S.held shelf.old feed.old.name) run.old feed.old given → FedBy S.whole r run.old.given first (S.fetches shelf.old) feed.old
        → RunFetches S.whole r feed.old.name first (S.fetches shelf.new) (S.faults shelf.old) (S.faults shelf.new) result }
    ensures kept { S.held shelf.new ≡ S.held shelf.old }
    ensures grows { (q : List ℕ) → S.faults shelf.old q ≤ S.faults shelf.new q }
    ensures still { OnOk result (O.faults out.new ≡ O.faults out.old) }
    ensures wanting { IfErr result (UnlessWrite (O.faults out.new ≡ O.faults out.old)) }
    ensures rises { O.faults out.old ≤ O.faults out.new }
{
    if let Err(fault) = telling.tell_header(staffed.task.columns, out) {
        return Err(fault);
    }
    while run.stream.below() {
        if let Err(fault) = run.go(shelf, feed, staffed.workers) {
            return Err(fault);
        }
        if let Err(fault) = telling.tell_last(run.stream.last(), staffed.task.columns, out) {
            return Err(fault);
        }
    }
    let placed = staffed.task.placed;
    let Ok(()) = run.append_end(placed.system.nodes.len() as u32, &mut telling.line) else {
        return Err(RunFault::Memory);
    };
    telling.finish(out)
}

/// Runs a system with its stations over so many rows of a feed that has given none, and writes the text of
/// the run to `out`: the output rows below their header line, how many cycles were made and how often each
/// node fired, and a trace of at most so many cycles, where one is wanted. Where stalls are given, their
/// cycles ascend, the source and the sink are held as they say, and it is told in how many cycles somebody
/// was held; nobody is held where none are given, and then two workers or more make the cycles, or this
/// thread alone. A row is fetched only when it is needed, an output row is pushed after the cycle in which the
/// sink fired for it, and a piece is written as soon as 65,536 bytes are held.
///
/// # Errors
/// After a fault a first part of the text was written, by some first of its pieces: of that of all rows that
/// begin with those that the feed gave. `Feed` hands on the fault of the feed, where `Read` comes only where the
/// count of its name rose in this call. `Few` tells how many rows the text has, where it ended without a fault
/// after fewer rows. `Write` comes exactly where the count of `out` rose in this call. `Memory` may come at any text.
///
/// Where the shelf tells its fetches, they are those that the rows need which the run asks for: where it tells the
/// file too and gives as many bytes as there is room for, exactly those that begin before these rows have ended.
pub fn run<'a, S: Shelf, O: Sink, R: Threads + AllocGlobal + Sync, G: Gate>(
    shelf: &mut S,
    out: &mut O,
    task: &'a Task<'a>,
    feed: &mut RowFeed,
    stalls: Option<Items<Stall>>,
    workers: &'a Workers<'a, R, G>,
) -> Result<(), RunFault>
    requires some { 0 < workers.now.many }
    requires few { task.now.rows ≤ 1000000 }
    requires ascend { Ascend (listed stalls) }
    requires feeds { HasGiven (S.held shelf.old feed.old.name) (source_columns task.now.placed.now.system) (length task.now.columns.now) feed.old [] }
    ensures ok { OnOk result (HasRun (run_by task.now stalls (S.held shelf.old feed.old.name)) O.written O.pieces out.old out.new) }
    ensures err { IfErr result (HasStopped (run_by task.now stalls (S.held shelf.old feed.old.name)) O.written O.pieces out.old out.new
        (Rose (S.faults shelf.old feed.old.name) (S.faults shelf.new feed.old.name)) (Rose (O.faults out.old) (O.faults out.new))) }
    ensures fetched { (first : Option (List Fetch))
        → FedBy S.whole (run_by task.now stalls (S.held shelf.old feed.old.name)) 0 first (S.fetches shelf.old) feed.old
        → RunFetches S.whole (run_by task.now stalls (S.held shelf.old feed.old.name)) feed.old.name
        first (S.fetches shelf.new) (S.faults shelf.old) (S.faults shelf.new) result }
    ensures kept { S.held shelf.new ≡ S.held shelf.old }
    ensures grows { (q : List ℕ) → S.faults shelf.old q ≤ S.faults shelf.new q }
    ensures still { OnOk result (O.faults out.new ≡ O.faults out.old) }
    ensures wanting { IfErr result (UnlessWrite (O.faults out.new ≡ O.faults out.old)) }
    ensures rises { O.faults out.old ≤ O.faults out.new }
{
    let alloc = workers.rt.alloc();
    let mut run = match Running::start(alloc, shelf, task, feed, stalls, workers.many) {
        Ok(run) => run,
        Err(fault) => return Err(fault),
    };
    let Ok(mut telling) = Telling::start(alloc) else {
        return Err(RunFault::Memory);
    };
    let staffed = Staffed { task, workers };
    tell_run(shelf, out, &staffed, feed, &mut run, &mut telling)
}

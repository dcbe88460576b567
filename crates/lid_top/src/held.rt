//! What jobs write that hold the rows of a file.

ghost use Rattle.std.specs.Prelude.{◌≡◌, true};
ghost use Rattle.lid_top_words.specs.Jobs.{IsJobInRange};
ghost use Rattle.lid_top_script.specs.Scripts.{script_of};
ghost use Rattle.lid_top_script.specs.Whole.{RunsOn};
ghost use Rattle.lid_top.specs.Families.{is_free, holds_rows};

use lid_base::{Gate, Shelf};
use lid_top_held::{Asked, HeldRun, run_text};
use lid_top_script::Stop;
use lid_top_words::Job;
use std::convert::AsStr;
use std::thread::Threads;

/// What `free` writes.
pub(crate) fn free_text<'a, R: Threads + AllocGlobal + Sync, S: Shelf, G: Gate>(
    rt: &R,
    gate: &G,
    shelf: &mut S,
    job: &'a Job,
) -> Result<Vec<u8>, Stop<'a>>
    requires of { is_free job.now ≡ true }
    requires sound { IsJobInRange job.now }
    ensures { RunsOn S.whole S.held S.fetches S.faults shelf.old shelf.new (script_of job.now) result }
{
    match job {
        Job::Free {
            net,
            vec,
            stations,
            workers,
            rounds,
            tally,
            root,
        } => {
            let run = HeldRun::Free {
                workers: *workers as u32,
                rounds: *rounds,
                tally: *tally,
            };
            run_text(rt, gate, shelf, &Asked::of(net, vec, stations, root, run))
        }
        _ => unreachable!(),
    }
}

/// What `walk` or `wave` writes.
pub(crate) fn rows_text<'a, R: Threads + AllocGlobal + Sync, S: Shelf, G: Gate>(
    rt: &R,
    gate: &G,
    shelf: &mut S,
    job: &'a Job,
) -> Result<Vec<u8>, Stop<'a>>
    requires of { holds_rows job.now ≡ true }
    requires sound { IsJobInRange job.now }
    ensures { RunsOn S.whole S.held S.fetches S.faults shelf.old shelf.new (script_of job.now) result }
{
    match job {
        Job::Walk {
            net,
            vec,
            schedule,
            stations,
            root,
        } => {
            let run = HeldRun::Walk(schedule.as_str());
            run_text(rt, gate, shelf, &Asked::of(net, vec, stations, root, run))
        }
        Job::Wave {
            net,
            vec,
            stations,
            trace,
            root,
        } => {
            let run = HeldRun::Wave(*trace);
            run_text(rt, gate, shelf, &Asked::of(net, vec, stations, root, run))
        }
        _ => unreachable!(),
    }
}

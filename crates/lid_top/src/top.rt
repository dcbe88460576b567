//! The top call: from words, files and sinks to a status.

ghost use Rattle.std.specs.Prelude.{◌≡◌, OnOk, IfErr};
ghost use Rattle.lid_top_words.specs.Jobs.{job_of};
ghost use Rattle.lid_top_script.specs.Causes.{end_status, end_line};
ghost use Rattle.lid_top_refusals.specs.Saying.{Says};
ghost use Rattle.lid_top_script.specs.Statuses.{shelf_view, sink_view, Run};

use crate::job::run_job;
use crate::saying::say_end;
use lid_base::{Gate, Shelf, Sink, Text};
use lid_top_refusals::{say_memory, say_usage};
use lid_top_script::JobEnd;
use lid_top_words::read_words;
use std::thread::Threads;

/// Runs the job that the words ask for, and answers the status of the program:
///
/// * 0: done. The output of the job was written to `out`, in pieces of 65,536 bytes, the last of which may be
///   shorter.
/// * 1: refused. The first reading, check or limit that refuses is told, after complete fetches.
/// * 2: usage. The words are no job.
/// * 3: read fault. A fetch of the file that is told failed.
/// * 4: write fault. A prefix of the output was written, by some first of its pieces.
/// * 5: want of memory.
/// * 6: the certificate that was to be verified is none of the graph.
///
/// On statuses 1, 2, 3, 5 and 6 nothing is written to `out`, but for `clock`, which writes while it
/// runs. No write of `out` failed but at status 4. On every status but 0 `err` gets one line; an `err`
/// that fails changes no status. Want of memory may come at any words.
pub fn lid_run<R, S, O, E, G>(
    rt: &R,
    words: &[Text],
    shelf: &mut S,
    out: &mut O,
    err: &mut E,
    gate: &G,
) -> u8
where
    R: Threads + AllocGlobal + Sync,
    S: Shelf,
    O: Sink,
    E: Sink,
    G: Gate,
    ensures { Run (job_of words.now) (shelf_view S.whole S.held S.fetches S.faults) shelf.old shelf.new
        (sink_view O.written O.pieces O.faults) out.old out.new (sink_view E.written E.pieces E.faults) err.old err.new result }
{
    match read_words(rt.alloc(), words) {
        Ok(Some(job)) => status_of(err, run_job(rt, &job, shelf, out, gate)),
        Ok(None) => {
            say_usage(err);
            2
        }
        Err(_) => {
            say_memory(err);
            5
        }
    }
}

/// Answers the status of a job that has ended, and says why its output is not whole.
fn status_of<E: Sink>(err: &mut E, ended: Result<(), JobEnd<'_>>) -> u8
    ensures whole { OnOk ended.entry ((result ≡ 0) × (err.new ≡ err.old)) }
    ensures stopped { IfErr ended.entry (λ end. (result ≡ end_status end) × Says E.written E.pieces E.faults err.old err.new (end_line end)) }
{
    match ended {
        Ok(()) => 0,
        Err(end) => say_end(err, &end),
    }
}

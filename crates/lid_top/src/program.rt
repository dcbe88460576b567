//! The program round the top call: from what the system gives it to the status of the process.

ghost use Rattle.std.specs.Prelude.{◌≡◌, ◌⊎◌, None, IfOk, IfErr};
ghost use Rattle.std.specs.Process.{exit_status};
ghost use Rattle.lid_top_words.specs.Jobs.{job_of};
ghost use Rattle.lid_top_refusals.specs.Faults.{usage_line, memory_line};
ghost use Rattle.lid_top_refusals.specs.Saying.{Says};
ghost use Rattle.lid_top_script.specs.Statuses.{shelf_view, sink_view, Run};
ghost use Rattle.lid_top.specs.Wordless.{IsStatusWithout};

use crate::top::lid_run;
use lid_base::{OpenGate, Shelf, Sink, Text};
use lid_top_refusals::{say_memory, say_usage};
use std::io;
use std::process::ExitCode;
use std::thread::Threads;

/// Says why there are no words, and answers the status: a word that is no text is no word of a job.
fn without_words<E: Sink>(err: &mut E, cause: &io::Error) -> u8
    ensures status { IsStatusWithout cause.now result }
    ensures says { ((result ≡ 2) × Says E.written E.pieces E.faults err.old err.new usage_line)
        ⊎ ((result ≡ 5) × Says E.written E.pieces E.faults err.old err.new memory_line) }
{
    if cause.kind() == io::ErrorKind::OutOfMemory {
        say_memory(err);
        5
    } else {
        say_usage(err);
        2
    }
}

/// Runs the job that the words after the program's name ask for, and ends with the status of
/// [`lid_run`](crate::lid_run). Where the system gives no words, as for one that is no text, they are
/// no job: the status is 2, and 5 exactly where the system gives none for want of memory.
pub fn run_program<R, S, O, E>(
    rt: &R,
    words: io::Result<Vec<Text>>,
    shelf: &mut S,
    out: &mut O,
    err: &mut E,
) -> ExitCode
where
    R: Threads + AllocGlobal + Sync,
    S: Shelf,
    O: Sink,
    E: Sink,
    ensures ran { IfOk words (λ words. Run (job_of words.items) (shelf_view S.whole S.held S.fetches S.faults) shelf.old shelf.new
        (sink_view O.written O.pieces O.faults) out.old out.new (sink_view E.written E.pieces E.faults) err.old err.new (exit_status result)) }
    ensures wordless { IfErr words (λ cause. Run None (shelf_view S.whole S.held S.fetches S.faults) shelf.old shelf.new
        (sink_view O.written O.pieces O.faults) out.old out.new (sink_view E.written E.pieces E.faults) err.old err.new (exit_status result)) }
    ensures told_apart { IfErr words (λ cause. IsStatusWithout cause (exit_status result)) }
{
    let status = match words {
        Ok(words) => lid_run(rt, &words, shelf, out, err, &OpenGate),
        Err(cause) => without_words(err, &cause),
    };
    ExitCode::from(status)
}

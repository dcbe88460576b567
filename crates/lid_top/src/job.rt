//! Jobs, from their words to what is written.

ghost use Rattle.std.specs.Prelude.{◌≡◌, true, false, OnOk, IfErr};
ghost use Rattle.lid_base.specs.Outside.{Rose};
ghost use Rattle.lid_top_words.specs.Jobs.{IsJobInRange};
ghost use Rattle.lid_top_script.specs.Scripts.{script_of};
ghost use Rattle.lid_top_script.specs.Early.{RunsEarly};
ghost use Rattle.lid_top_script.specs.Whole.{RunsOn};
ghost use Rattle.lid_top_script.specs.Causes.{IsJobEnd, IsStoppedJob, IsRefusedJob, job_status};
ghost use Rattle.lid_top_script.specs.Fetches.{FetchesJob};
ghost use Rattle.lid_top_script.specs.Statuses.{Writes, WritesPrefix, TellsAll, Leaves, writes_early};

use crate::held::{free_text, rows_text};
use crate::texts::{netlist_text, told_text};
use crate::writing::write_text;
use lid_base::{Gate, Shelf, Sink};
use lid_top_clock::{Asked, Workers, run_clock};
use lid_top_gen::gen_text;
use lid_top_held::unwave_text;
use lid_top_script::{JobEnd, NetFiles, Stop};
use lid_top_whole::{check_text, strict_text};
use lid_top_words::Job;
use std::convert::AsStr;
use std::thread::Threads;

/// Runs a job: its output goes to `out`, and what it needs of threads comes from `rt` and `gate`.
pub fn run_job<'a, R, S, O, G>(
    rt: &R,
    job: &'a Job,
    shelf: &mut S,
    out: &mut O,
    gate: &G,
) -> Result<(), JobEnd<'a>>
where
    R: Threads + AllocGlobal + Sync,
    S: Shelf,
    O: Sink,
    G: Gate,
    requires { IsJobInRange job.now }
    ensures done { OnOk result (Writes (S.held shelf.old) (script_of job.now) O.written O.pieces out.old out.new) }
    ensures fails { IfErr result (IsJobEnd (S.held shelf.old) (script_of job.now) (S.faults shelf.old) (S.faults shelf.new)
        (Rose (O.faults out.old) (O.faults out.new) × WritesPrefix (S.held shelf.old) (script_of job.now) O.written O.pieces out.old out.new)) }
    ensures left { IfErr result (λ end. IsStoppedJob end
        → Leaves (writes_early job.now) (S.held shelf.old) (script_of job.now) O.written O.pieces out.old out.new) }
    ensures unwritten { IfErr result (λ end. IsRefusedJob end → TellsAll (S.held shelf.old) (script_of job.now) → out.new ≡ out.old) }
    ensures fetched { FetchesJob S.whole (S.held shelf.old) (script_of job.now)
        (S.fetches shelf.old) (S.fetches shelf.new) (S.faults shelf.old) (S.faults shelf.new) (job_status result) }
    ensures still { OnOk result (O.faults out.new ≡ O.faults out.old) }
    ensures wanting { IfErr result (λ end. IsStoppedJob end → O.faults out.new ≡ O.faults out.old) }
    ensures kept { S.held shelf.new ≡ S.held shelf.old }
{
    match job {
        Job::Clock { .. } => run_early(rt, gate, job, shelf, out),
        _ => run_whole(rt, gate, job, shelf, out),
    }
}

/// Runs a job that writes while it runs, `clock`.
fn run_early<'a, R: Threads + AllocGlobal + Sync, S: Shelf, O: Sink, G: Gate>(
    rt: &R,
    gate: &G,
    job: &'a Job,
    shelf: &mut S,
    out: &mut O,
) -> Result<(), JobEnd<'a>>
    requires early { writes_early job.now ≡ true }
    requires sound { IsJobInRange job.now }
    ensures ran { RunsEarly (S.held shelf.old) (script_of job.now)
        (S.faults shelf.old) (S.faults shelf.new) O.written O.pieces O.faults out.old out.new result }
    ensures fetched { FetchesJob S.whole (S.held shelf.old) (script_of job.now)
        (S.fetches shelf.old) (S.fetches shelf.new) (S.faults shelf.old) (S.faults shelf.new) (job_status result) }
    ensures still { OnOk result (O.faults out.new ≡ O.faults out.old) }
    ensures wanting { IfErr result (λ end. IsStoppedJob end → O.faults out.new ≡ O.faults out.old) }
    ensures kept { S.held shelf.new ≡ S.held shelf.old }
{
    match job {
        Job::Clock {
            net,
            vec,
            stations,
            stalls,
            workers,
            trace,
            root,
        } => {
            let many = *workers as u32;
            let asked = Asked {
                files: NetFiles::of(net, stations, root),
                vec: vec.as_str(),
                stalls,
                trace: *trace,
            };
            run_clock(&Workers { rt, gate, many }, shelf, out, &asked)
        }
        _ => unreachable!(),
    }
}

/// Runs a job that writes nothing before its output is whole.
fn run_whole<'a, R: Threads + AllocGlobal + Sync, S: Shelf, O: Sink, G: Gate>(
    rt: &R,
    gate: &G,
    job: &'a Job,
    shelf: &mut S,
    out: &mut O,
) -> Result<(), JobEnd<'a>>
    requires whole { writes_early job.now ≡ false }
    requires sound { IsJobInRange job.now }
    ensures done { OnOk result (Writes (S.held shelf.old) (script_of job.now) O.written O.pieces out.old out.new) }
    ensures fails { IfErr result (IsJobEnd (S.held shelf.old) (script_of job.now) (S.faults shelf.old) (S.faults shelf.new)
        (Rose (O.faults out.old) (O.faults out.new) × WritesPrefix (S.held shelf.old) (script_of job.now) O.written O.pieces out.old out.new)) }
    ensures left { IfErr result (λ end. IsStoppedJob end → out.new ≡ out.old) }
    ensures fetched { FetchesJob S.whole (S.held shelf.old) (script_of job.now)
        (S.fetches shelf.old) (S.fetches shelf.new) (S.faults shelf.old) (S.faults shelf.new) (job_status result) }
    ensures still { OnOk result (O.faults out.new ≡ O.faults out.old) }
    ensures wanting { IfErr result (λ end. IsStoppedJob end → O.faults out.new ≡ O.faults out.old) }
    ensures kept { S.held shelf.new ≡ S.held shelf.old }
{
    match text_of(rt, gate, shelf, job) {
        Ok(text) => write_text(rt.alloc(), out, &text),
        Err(stop) => Err(JobEnd::Stopped(stop)),
    }
}

/// What a job writes that writes nothing before its output is whole.
fn text_of<'a, R: Threads + AllocGlobal + Sync, S: Shelf, G: Gate>(
    rt: &R,
    gate: &G,
    shelf: &mut S,
    job: &'a Job,
) -> Result<Vec<u8>, Stop<'a>>
    requires whole { writes_early job.now ≡ false }
    requires sound { IsJobInRange job.now }
    ensures { RunsOn S.whole S.held S.fetches S.faults shelf.old shelf.new (script_of job.now) result }
{
    match job {
        Job::Clock { .. } => unreachable!(),
        Job::Check { net, root } => check_text(rt.alloc(), shelf, net.as_str(), root),
        Job::Gen { seed, shells, run } => gen_text(rt.alloc(), *seed, *shells, run),
        Job::Strict { net, vec, root } => {
            strict_text(rt.alloc(), shelf, net.as_str(), vec.as_str(), root)
        }
        Job::Unwave { file } => unwave_text(rt.alloc(), shelf, file.as_str()),
        Job::Rate { .. } | Job::Size { .. } | Job::Slack { .. } => {
            told_text(rt.alloc(), shelf, job)
        }
        Job::Emit { .. } | Job::Place { .. } | Job::Verify { .. } => {
            netlist_text(rt.alloc(), shelf, job)
        }
        Job::Free { .. } => free_text(rt, gate, shelf, job),
        Job::Walk { .. } | Job::Wave { .. } => rows_text(rt, gate, shelf, job),
    }
}

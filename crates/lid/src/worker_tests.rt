//! Runs on workers, through the top call. They print what the runs of the other tests print, which is worked out by hand
//! there, and their workers pass the gate as often, and with the numbers, that `cycle_on` and `free_run` speak of.

use crate::clock_tests::{RUNS, STATIONED};
use crate::net_tests::{ONE_RELAY, RING};
use crate::tests::{
    Left, done, expect_further, expect_left, expect_meeting, run_gated, split_words,
};
use lid_base::Gate;
use std::alloc::{AllocError, Global};
use std::process::Abort;
use std::sync::atomic::{AtomicU64, Ordering};
use std::test::Fail;
use std::thread::Threads;

/// How many workers there are: one, fewer than actors, and more than them.
static WORKERS: &[&str] = &["1", "2", "3", "5", "64"];

#[test]
fn workers_print_what_one_prints(rt: HostRuntime) -> Result<(), Fail> {
    for (net, rows, stations, trace, told) in RUNS {
        let files = [("n.blif", *net), ("r.vec", *rows), ("s", *stations)];
        for workers in WORKERS {
            let further = ["--trace", *trace, "--workers", *workers];
            expect_further(&rt, STATIONED, &further, &files, done(told))?;
        }
    }
    Ok(())
}

/// The files of a ring with one relay station over four rows: five actors, and six cycles where it is clocked.
static FILES: &[(&str, &str)] = &[
    ("n.blif", RING),
    ("r.vec", "-\n-\n-\n-\n-\n"),
    ("s", ONE_RELAY),
];

#[test]
fn two_workers_meet_at_the_gate(rt: HostRuntime) -> Result<(), Fail> {
    let words = [
        "clock",
        "n.blif",
        "r.vec",
        "--stations",
        "s",
        "--trace",
        "6",
        "--workers",
        "2",
    ];
    let told =
        "y\n1\n0\n1\n0\ncycles 6\nfired in 3\nfired u0 3\nfired u1 3\nfired out 4\ntrace 4 6\n\
0 . 1 1\n1 0 . .\n. 1 0 0\n0 . 1 1\n1 0 . .\n. 1 0 0\n";
    expect_meeting(&rt, &words, FILES, done(told))?;
    Ok(())
}

/// A gate that notes each pass of 64 workers in the first 16 rounds: of each worker four bits for each round, which count
/// up to 15. A pass with greater numbers is a stray.
#[derive(Drop)]
struct RoundGate {
    passes: Vec<AtomicU64>,
    strays: AtomicU64,
}

impl Gate for RoundGate {
    fn pass(&self, worker: u32, round: u64) {
        match self.passes.get(worker as usize) {
            Some(word) if round < 16 => word.fetch_add(1u64 << (4 * round), Ordering::SeqCst),
            _ => self.strays.fetch_add(1, Ordering::SeqCst),
        };
    }
}

/// A gate that nobody has passed.
fn new_gate(alloc: Global) -> Result<RoundGate, AllocError> {
    let mut passes = Vec::with_capacity(alloc, 64)?;
    for _ in 0..64u32 {
        passes.push(AtomicU64::new(0))?;
    }
    Ok(RoundGate {
        passes,
        strays: AtomicU64::new(0),
    })
}

/// Whether each of the first workers, so many, has these passes, and nobody else has passed.
fn was_passed(gate: &RoundGate, workers: usize, each: u64) -> bool {
    for i in 0..gate.passes.len() {
        let noted = if i < workers { each } else { 0 };
        if gate.passes[i].load(Ordering::SeqCst) != noted {
            return false;
        }
    }
    gate.strays.load(Ordering::SeqCst) == 0
}

/// The rows of the ring, as a free run prints them.
const FREED: &str = "y\n1\n0\n1\n0\n";

/// The same with the cycles and firings of a clocked run.
const CLOCKED: &str = "y\n1\n0\n1\n0\ncycles 6\nfired in 3\nfired u0 3\nfired u1 3\nfired out 4\n";

/// Once in each of three rounds, and once in each of six.
const THREE: u64 = 0x111;

const SIX: u64 = 0x11_1111;

/// Further words of runs of the ring, what is printed, how many workers pass the gate, and when.
static PASSES: &[(&str, &str, usize, u64)] = &[
    // each worker passes before each round, with its number and that of the round; also one without actors
    ("free --rounds 3 --workers 1", FREED, 1, THREE),
    ("free --rounds 3 --workers 2", FREED, 2, THREE),
    ("free --rounds 3 --workers 5", FREED, 5, THREE),
    ("free --rounds 3 --workers 64", FREED, 64, THREE),
    ("free --rounds 0 --workers 2", FREED, 0, 0),
    // one worker of a clocked run passes no gate; more of them pass once for each share of actors in each cycle, with
    // the number of the share and that of the cycle: shares of three actors, of two, and of one
    ("clock --workers 1", CLOCKED, 0, 0),
    ("clock --workers 2", CLOCKED, 2, SIX),
    ("clock --workers 4", CLOCKED, 3, SIX),
    ("clock --workers 5", CLOCKED, 5, SIX),
    ("clock --workers 64", CLOCKED, 5, SIX),
];

/// Runs words over the files of the ring, compares all that is left, and looks who has passed the gate.
fn expect_passes<R: Threads + AllocGlobal + Sync + Abort>(
    rt: &R,
    line: &str,
    left: Left<'_>,
    workers: usize,
    each: u64,
) -> Result<(), AllocError> {
    let mut words = split_words(rt.alloc(), line)?;
    words.extend_from_slice(&["n.blif", "r.vec", "--stations", "s"])?;
    let gate = new_gate(rt.alloc())?;
    let ran = run_gated(rt, words.as_slice(), FILES, &gate)?;
    expect_left(rt, &ran, left, line);
    assert!(rt; was_passed(&gate, workers, each), "other passes: {line}");
    Ok(())
}

#[test]
fn each_worker_passes_the_gate_with_its_numbers(rt: HostRuntime) -> Result<(), Fail> {
    for (line, told, workers, each) in PASSES {
        expect_passes(&rt, line, done(told), *workers, *each)?;
    }
    Ok(())
}

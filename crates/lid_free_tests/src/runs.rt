//! Free runs: what workers count, and what a run gives, whatever the order of threads.

ghost use Rattle.lid_tests_fixtures.specs.Runs.{IsFittingRun};

use lid_base::{Gate, Items, MeetGate, OpenGate, Tally};
use lid_free::{FreeEnd, free_run};
use lid_tests_fixtures::{RING, SampleRun, run_of};
use std::alloc::Global;
use std::sync::atomic::{AtomicU64, Ordering};
use std::thread::Threads;

/// A relay station between the first register of the ring and the second. Stations 0 and 1 lead from node 1 to node 2, 2
/// back, and 3 from node 2 to node 3; node 0, the source, has none, and actor 4 moves tokens from station 0 to station 1.
const RELAYED: &[u8] = b"lid-stations 1\nu0 u1 0 1\n";

/// Two ways from one register to another, which turns up where the bits of both differ.
const DIAMOND: &[u8] = b".model dia\n.inputs x\n.outputs y\n.subckt reg d=x q=a\n\
.subckt xr a=a b=b q=y\n.subckt reg d=a q=b\n.end\n.model reg\n.inputs d\n.outputs q\n\
.latch d q 0\n.end\n.model xr\n.inputs a b\n.outputs q\n.names a b n\n10 1\n01 1\n\
.latch n q 0\n.end\n";

/// Three relay stations on one of the ways, and another capacity on the other.
const ROOMY: &[u8] = b"lid-stations 2\nu0 u1 0 3 2 2 2 2\nu0 u2 0 0 3\n";

/// A shell that feeds itself, and turns its output about in each row.
const SELF: &[u8] = b".model self\n.outputs y\n.subckt turn d=y q=y\n.end\n\
.model turn\n.inputs d\n.outputs q\n.names d n\n0 1\n.latch n q 0\n.end\n";

/// A relay station between the shell and itself. Stations 0 and 1 lead from node 1 to itself by actor 3, and station 2 to
/// node 2, the sink; node 0, the source, has none.
const SELF_RELAYED: &[u8] = b"lid-stations 1\nu0 u0 0 1\n";

/// A gate that counts how often it is passed, and by how many in each of the first rounds.
#[derive(Drop)]
struct CountGate {
    passes: AtomicU64,
    late: AtomicU64,
}

impl Gate for CountGate {
    fn pass(&self, _worker: u32, round: u64) {
        self.passes.fetch_add(1, Ordering::SeqCst);
        if round >= 3 {
            self.late.fetch_add(1, Ordering::SeqCst);
        }
    }
}

/// The end of a free run.
fn end_of<R: Threads + Sync, G: Gate>(
    rt: &R,
    alloc: Global,
    run: &SampleRun,
    workers: u32,
    rounds: u64,
    gate: &G,
) -> Option<FreeEnd>
    requires { IsFittingRun run.now.system run.now.placement run.now.rows.bits }
{
    if workers == 0 || workers > 64 || rounds > 1000000 {
        return None;
    }
    free_run(
        rt,
        alloc,
        &run.system,
        &run.placement,
        &run.rows,
        workers,
        rounds,
        gate,
    )
    .ok()
}

/// Whether rows of one column have these bits.
fn are_bits(rows: &[Items<bool>], bits: &[bool]) -> bool {
    if rows.len() != bits.len() {
        return false;
    }
    for row in 0..bits.len() {
        if rows[row].as_slice().first() != Some(&bits[row]) {
            return false;
        }
    }
    true
}

/// Whether a tally has these numbers: turns, firings, voids, stops, and turns at the cap.
fn is_tally(tally: &Tally, numbers: &[u64; 5]) -> bool {
    tally.turns == numbers[0]
        && tally.fired == numbers[1]
        && tally.voids == numbers[2]
        && tally.stops == numbers[3]
        && tally.dones == numbers[4]
}

/// Whether tallies have these numbers.
fn are_tallies(tallies: &[Tally], numbers: &[[u64; 5]]) -> bool {
    if tallies.len() != numbers.len() {
        return false;
    }
    for worker in 0..tallies.len() {
        if !is_tally(&tallies[worker], &numbers[worker]) {
            return false;
        }
    }
    true
}

/// What a run gives, whatever the order of threads.
struct Case {
    netlist: &'static [u8],
    stations: &'static [u8],
    letters: &'static [u8],
    workers: u32,
    rounds: u64,
    bits: &'static [bool],
    tallies: &'static [[u64; 5]],
    fired: &'static [u64],
    passed: &'static [u64],
    finish: u64,
    finish_fired: u64,
}

static CASES: [Case; 6] = [
    Case {
        netlist: RING,
        stations: RELAYED,
        letters: b"0000",
        workers: 2,
        rounds: 0,
        bits: &[true, false, true, false],
        tallies: &[[0, 0, 0, 0, 0], [0, 0, 0, 0, 0]],
        fired: &[0, 0, 0, 0, 0],
        passed: &[0, 0, 0, 0],
        finish: 4,
        finish_fired: 17,
    },
    Case {
        netlist: RING,
        stations: RELAYED,
        letters: b"0000",
        workers: 1,
        rounds: 64,
        bits: &[true, false, true, false],
        tallies: &[[320, 17, 2, 0, 301]],
        fired: &[3, 3, 3, 4, 4],
        passed: &[4, 3, 3, 4],
        finish: 0,
        finish_fired: 0,
    },
    Case {
        netlist: RING,
        stations: RELAYED,
        letters: b"",
        workers: 3,
        rounds: 5,
        bits: &[],
        tallies: &[[0, 0, 0, 0, 0], [0, 0, 0, 0, 0], [0, 0, 0, 0, 0]],
        fired: &[0, 0, 0, 0, 0],
        passed: &[0, 0, 0, 0],
        finish: 0,
        finish_fired: 0,
    },
    // one worker: each kind of actor turns at the shared board by one hand, as the machine has it at a plain one
    Case {
        netlist: DIAMOND,
        stations: ROOMY,
        letters: b"1101",
        workers: 1,
        rounds: 3,
        bits: &[false, false, true, false],
        tallies: &[[24, 23, 1, 0, 0]],
        fired: &[3, 3, 2, 3, 3, 3, 3, 3],
        passed: &[3, 3, 3, 3, 2, 3, 3, 2],
        finish: 1,
        finish_fired: 5,
    },
    Case {
        netlist: DIAMOND,
        stations: ROOMY,
        letters: b"1101",
        workers: 1,
        rounds: 50,
        bits: &[false, false, true, false],
        tallies: &[[400, 28, 1, 0, 371]],
        fired: &[3, 3, 3, 3, 4, 4, 4, 4],
        passed: &[3, 4, 4, 4, 3, 3, 4, 3],
        finish: 0,
        finish_fired: 0,
    },
    Case {
        netlist: SELF,
        stations: SELF_RELAYED,
        letters: b"000",
        workers: 1,
        rounds: 2,
        bits: &[false, true, false],
        tallies: &[[8, 7, 1, 0, 0]],
        fired: &[2, 1, 2, 2],
        passed: &[2, 1, 2],
        finish: 1,
        finish_fired: 3,
    },
];

/// Whether an end is that of a case.
fn is_end(end: &FreeEnd, case: &Case) -> bool {
    are_bits(end.rows.bits.as_slice(), case.bits)
        && are_tallies(end.tallies.as_slice(), case.tallies)
        && end.fired.as_slice() == case.fired
        && end.passed.as_slice() == case.passed
        && end.finish == case.finish
        && end.finish_fired == case.finish_fired
}

/// How many of the cases, from the first on, end as they must.
fn first_other<R: Threads + Sync>(rt: &R, alloc: Global) -> usize {
    for number in 0..CASES.len() {
        let case = &CASES[number];
        let Some(run) = run_of(alloc, case.netlist, case.stations, case.letters) else {
            return number;
        };
        let Some(end) = end_of(rt, alloc, &run, case.workers, case.rounds, &OpenGate) else {
            return number;
        };
        if !is_end(&end, case) {
            return number;
        }
    }
    CASES.len()
}

#[test]
fn runs_end_as_the_machine_says(rt: HostRuntime) {
    assert_eq!(rt; first_other(&rt, rt.alloc()), CASES.len());
}

/// A netlist with its stations, its rows, how it is run, and its strict rows.
struct Rows {
    netlist: &'static [u8],
    stations: &'static [u8],
    letters: &'static [u8],
    workers: u32,
    rounds: u64,
    bits: &'static [bool],
}

static ROWS: [Rows; 3] = [
    Rows {
        netlist: RING,
        stations: RELAYED,
        letters: b"0000",
        workers: 2,
        rounds: 64,
        bits: &[true, false, true, false],
    },
    Rows {
        netlist: RING,
        stations: RELAYED,
        letters: b"0000",
        workers: 64,
        rounds: 3,
        bits: &[true, false, true, false],
    },
    Rows {
        netlist: DIAMOND,
        stations: ROOMY,
        letters: b"1101",
        workers: 3,
        rounds: 50,
        bits: &[false, false, true, false],
    },
];

/// How many of these runs, from the first on, give their rows.
fn first_other_rows<R: Threads + Sync>(rt: &R, alloc: Global) -> usize {
    for number in 0..ROWS.len() {
        let case = &ROWS[number];
        let Some(run) = run_of(alloc, case.netlist, case.stations, case.letters) else {
            return number;
        };
        let Some(end) = end_of(rt, alloc, &run, case.workers, case.rounds, &OpenGate) else {
            return number;
        };
        if !are_bits(end.rows.bits.as_slice(), case.bits) {
            return number;
        }
    }
    ROWS.len()
}

#[test]
fn rows_are_the_strict_rows_for_all_workers(rt: HostRuntime) {
    assert_eq!(rt; first_other_rows(&rt, rt.alloc()), ROWS.len());
}

/// How often the gate is passed by three workers in five rounds of the ring over some rows, and how often from round 3
/// on.
fn passes_of<R: Threads + Sync>(rt: &R, alloc: Global, letters: &[u8]) -> Option<(u64, u64)> {
    let gate = CountGate {
        passes: AtomicU64::new(0),
        late: AtomicU64::new(0),
    };
    let Some(run) = run_of(alloc, RING, RELAYED, letters) else {
        return None;
    };
    let Some(_end) = end_of(rt, alloc, &run, 3, 5, &gate) else {
        return None;
    };
    Some((
        gate.passes.load(Ordering::SeqCst),
        gate.late.load(Ordering::SeqCst),
    ))
}

#[test]
fn the_gate_is_passed_before_each_round(rt: HostRuntime) {
    assert_eq!(rt; passes_of(&rt, rt.alloc(), b"0000"), Some((15, 6)));
    assert_eq!(rt; passes_of(&rt, rt.alloc(), b""), Some((0, 0)));
}

/// Whether two workers meet at the gate in their first round, and the rows are the strict rows.
fn have_met<R: Threads + Sync>(rt: &R, alloc: Global) -> bool {
    let gate = MeetGate::new(2, 2_000_000_000);
    let Some(run) = run_of(alloc, RING, RELAYED, b"0000") else {
        return false;
    };
    let Some(end) = end_of(rt, alloc, &run, 2, 1, &gate) else {
        return false;
    };
    gate.met() && are_bits(end.rows.bits.as_slice(), &[true, false, true, false])
}

#[test]
fn workers_run_at_once(rt: HostRuntime) {
    assert!(rt; have_met(&rt, rt.alloc()));
}

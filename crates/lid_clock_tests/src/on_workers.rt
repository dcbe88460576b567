//! Runs on several workers, and what passes their gates.

ghost use Rattle.std.specs.Prelude.{◌<◌, ◌≤◌, length};
ghost use Rattle.std.specs.List.{AllByRecursion};
ghost use Rattle.lid_system.specs.Systems.{IsWellFormed};
ghost use Rattle.lid_stations.specs.Placements.{Fits};
ghost use Rattle.lid_shell_laws.specs.Setups.{IsInputRow};
ghost use Rattle.lid_clock.specs.Clocks.{IsClockedRun};

use crate::at_hand::{are_bits, fired_so, show_so};
use lid_base::{Gate, MeetGate};
use lid_clock::Clocked;
use lid_parclock::run_on;
use lid_stations::Placement;
use lid_system::{System, systems_have_one_table};
use lid_tests_fixtures::{RING, are_rows, placement_of, rows_of, system_of};
use lid_texts::Rows;
use std::alloc::{AllocGlobal, Global};
use std::sync::atomic::{AtomicU64, Ordering};
use std::thread::Threads;

/// A gate that counts how often each of 64 workers passes it in each of the first 16 cycles, up to 15 times:
/// four bits for each cycle.
#[derive(Drop)]
struct TallyGate {
    passes: Vec<AtomicU64>,
    strays: AtomicU64,
}

impl Gate for TallyGate {
    fn pass(&self, worker: u32, round: u64) {
        match self.passes.get(worker as usize) {
            Some(word) if round < 16 => word.fetch_add(1u64 << (4 * round), Ordering::SeqCst),
            _ => self.strays.fetch_add(1, Ordering::SeqCst),
        };
    }
}

/// A gate that nobody has passed.
fn new_tally(alloc: Global) -> Option<TallyGate> {
    let mut passes = Vec::with_capacity(alloc, 64).ok()?;
    for _ in 0..64 {
        passes.push(AtomicU64::new(0)).ok()?;
    }
    Some(TallyGate {
        passes,
        strays: AtomicU64::new(0),
    })
}

/// What the gate counts of a worker that has passed it once in each of so many cycles.
fn once_in_each(cycles: u64) -> u64 {
    let mut passes = 0u64;
    for _ in 0..cycles {
        passes = passes.wrapping_mul(16).wrapping_add(1);
    }
    passes
}

/// Whether each of the first workers, so many, and nobody else has passed it once in each of so many cycles.
fn was_passed(gate: &TallyGate, workers: usize, cycles: u64) -> bool {
    let each = once_in_each(cycles);
    for i in 0..gate.passes.len() {
        let passes = if i < workers { each } else { 0 };
        if gate.passes[i].load(Ordering::SeqCst) != passes {
            return false;
        }
    }
    gate.strays.load(Ordering::SeqCst) == 0
}

/// What a run comes to: its cycles, its output rows, the firings of its actors, and what its stations show.
#[derive(Clone, Copy)]
struct Outcome<'a> {
    cycles: u64,
    rows: &'a [u8],
    fired: &'a [u8],
    shown: &'a [u8],
}

/// That of the ring with one relay station, over four rows.
static SHORT: Outcome<'static> = Outcome {
    cycles: 6,
    rows: b"1010",
    fired: b"33344",
    shown: b".10.",
};

/// That of the ring with nine relay stations, over four rows.
static LONG: Outcome<'static> = Outcome {
    cycles: 14,
    rows: b"1010",
    fired: b"3334444444444",
    shown: b".10.........",
};

/// That of the ring with one relay station, over no rows.
static NOTHING: Outcome<'static> = Outcome {
    cycles: 0,
    rows: b"",
    fired: b"00000",
    shown: b"....",
};

/// Whether a run on so many workers comes to this.
fn comes_to<R: Threads + Sync, G: Gate>(
    rt: &R,
    clocked: &mut Clocked,
    workers: u32,
    gate: &G,
    outcome: &Outcome,
) -> bool
    requires run { IsClockedRun clocked.old }
    requires some { 0 < workers }
{
    run_on(rt, clocked, workers, gate) == outcome.cycles
        && clocked.made() == outcome.cycles
        && are_bits(clocked.rows(), outcome.rows)
        && fired_so(clocked, outcome.fired)
        && show_so(clocked, outcome.shown)
}

/// Whether the run of a system with its stations over some rows comes to this.
fn runs_on<R: Threads + AllocGlobal + Sync, G: Gate>(
    rt: &R,
    system: &System,
    placement: &Placement,
    rows: &Rows,
    workers: u32,
    gate: &G,
    outcome: &Outcome,
) -> bool
    requires system { IsWellFormed system.now }
    requires fits { Fits system.now placement.now }
    requires few { length rows.now.bits ≤ 1000000 }
    requires wide { AllByRecursion (IsInputRow system.now) rows.now.bits }
    requires some { 0 < workers }
{
    systems_have_one_table();
    match Clocked::start(rt.alloc(), system, placement, rows) {
        Ok(mut clocked) => comes_to(rt, &mut clocked, workers, gate, outcome),
        Err(_) => false,
    }
}

/// The same of the ring with nine relay stations, or with one.
fn is_ring_on<R: Threads + AllocGlobal + Sync, G: Gate>(
    rt: &R,
    system: &System,
    long: bool,
    rows: &Rows,
    workers: u32,
    gate: &G,
    outcome: &Outcome,
) -> bool
    requires { IsWellFormed system.now }
{
    if workers == 0 || system.channels.len() != 3 || !are_rows(system, rows.bits.as_slice()) {
        return false;
    }
    let placement = if long {
        placement_of(rt.alloc(), &[1, 0, 8], &[2; 12])
    } else {
        placement_of(rt.alloc(), &[1, 0, 0], &[2, 2, 2, 2])
    };
    match placement {
        Some(placement) => runs_on(rt, system, &placement, rows, workers, gate, outcome),
        None => false,
    }
}

/// The same of the ring of a netlist over as many rows as a text has letters.
fn ring_runs_on<R: Threads + AllocGlobal + Sync, G: Gate>(
    rt: &R,
    long: bool,
    rows: &[u8],
    workers: u32,
    gate: &G,
    outcome: &Outcome,
) -> bool {
    let Some(system) = system_of(rt.alloc(), RING) else {
        return false;
    };
    match rows_of(rt.alloc(), rows, 0) {
        Some(rows) => is_ring_on(rt, &system, long, &rows, workers, gate, outcome),
        None => false,
    }
}

/// Whether two workers meet in the first cycle of a run, which comes to what it should.
fn two_meet<R: Threads + AllocGlobal + Sync>(rt: &R) -> bool {
    let gate = MeetGate::new(2, 2_000_000_000);
    ring_runs_on(rt, false, b"0000", 2, &gate, &SHORT) && gate.met()
}

/// Whether a run on so many workers comes to this, and so many shares of actors pass the gate in each cycle.
fn shares_pass<R: Threads + AllocGlobal + Sync>(
    rt: &R,
    long: bool,
    rows: &[u8],
    workers: u32,
    shares: usize,
    outcome: &Outcome,
) -> bool {
    match new_tally(rt.alloc()) {
        Some(gate) => {
            ring_runs_on(rt, long, rows, workers, &gate, outcome)
                && was_passed(&gate, shares, outcome.cycles)
        }
        None => false,
    }
}

/// Numbers of workers, and how many shares there are then of 5 actors, and of 13.
static SHARES: [(u32, usize, usize); 7] = [
    (1, 1, 1),
    (2, 2, 2),
    (3, 3, 3),
    (4, 3, 4),
    (5, 5, 5),
    (6, 5, 5),
    (64, 5, 13),
];

/// Whether runs on these numbers of workers come to the same, and their shares pass the gate.
fn all_come_to_the_same<R: Threads + AllocGlobal + Sync>(rt: &R) -> bool {
    for (workers, few, many) in &SHARES {
        if !shares_pass(rt, false, b"0000", *workers, *few, &SHORT)
            || !shares_pass(rt, true, b"0000", *workers, *many, &LONG)
        {
            return false;
        }
    }
    true
}

#[test]
fn two_workers_run_at_once(rt: HostRuntime) {
    assert!(rt; two_meet(&rt));
}

#[test]
fn a_run_on_any_number_of_workers_comes_to_the_same(rt: HostRuntime) {
    assert!(rt; all_come_to_the_same(&rt));
}

#[test]
fn no_gate_is_passed_where_there_are_no_rows(rt: HostRuntime) {
    assert!(rt; shares_pass(&rt, false, b"", 3, 0, &NOTHING));
}

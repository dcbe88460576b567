//! Draws, and the rows and relay stations of runs. What is expected was told by `tools/dev/gen.py`; the first run
//! was worked out by hand.

use lid_gen::{Draws, run_relays, run_rows};
use lid_texts::print_rows;
use std::alloc::Global;

/// Whether draws of one of so many numbers go through these states and answer their remainders.
fn goes(seed: u64, n: u32, states: &[u32]) -> bool {
    if n == 0 {
        return false;
    }
    let mut draws = Draws::begin(seed);
    for state in states {
        if draws.draw(n) != *state % n || draws.state != *state {
            return false;
        }
    }
    true
}

/// Seeds, and the states after the first draws.
static STATES: [(u64, &[u32]); 3] = [
    (2, &[224, 16874, 20421, 24298, 52925, 37229]),
    (65539, &[224, 16874, 20421, 24298, 52925, 37229]),
    (
        18_446_744_073_709_551_615,
        &[74, 5624, 28652, 51790, 17641, 12409],
    ),
];

#[test]
fn states_follow_from_the_seed(rt: HostRuntime) {
    for case in &STATES {
        assert!(rt; goes(case.0, 6, case.1));
    }
}

/// Whether the rows of a run have this text.
fn has_rows(alloc: Global, seed: u64, shells: u32, rows: u32, text: &str) -> bool {
    if shells > 2000 {
        return false;
    }
    let Ok(rows) = run_rows(alloc, seed, shells, rows) else {
        return false;
    };
    let mut written = Vec::new(alloc);
    let Ok(()) = print_rows(&rows, &mut written) else {
        return false;
    };
    written.as_slice() == text.as_bytes()
}

/// Whether the relay stations of a run on as many channels are these.
fn has_relays(alloc: Global, seed: u64, shells: u32, rows: u32, relays: &[u32]) -> bool {
    if shells > 2000 || rows > 1_000_000 || relays.len() > 16384 {
        return false;
    }
    match run_relays(alloc, seed, shells, rows, relays.len() as u32) {
        Ok(found) => found.as_slice() == relays,
        Err(_) => false,
    }
}

/// A seed, its shells and rows, the text of the rows, and relay stations.
type Run = (u64, u32, u32, &'static str, &'static [u32]);

static RUNS: [Run; 3] = [
    (2, 1, 3, "x0 x1 x2 x3\n1000\n0011\n1111\n", &[3, 0, 1]),
    (
        65539,
        5,
        4,
        "x0 x1 x2 x3\n1111\n1010\n0110\n1010\n",
        &[1, 1, 1, 1, 2, 2, 3, 2, 3],
    ),
    (
        18_446_744_073_709_551_615,
        3,
        2,
        "x0 x1 x2 x3\n1000\n1001\n",
        &[1, 2, 3, 0],
    ),
];

#[test]
fn rows_are_drawn_after_the_design(rt: HostRuntime) {
    for case in &RUNS {
        assert!(rt; has_rows(rt.alloc(), case.0, case.1, case.2, case.3));
    }
}

#[test]
fn relay_stations_are_drawn_after_the_rows(rt: HostRuntime) {
    for case in &RUNS {
        assert!(rt; has_relays(rt.alloc(), case.0, case.1, case.2, case.4));
    }
}

//! Free runs, through the top call. What is expected is worked out by hand: the strict outputs, and the tallies of one
//! worker from the sweeps of the interleaving machine.

use crate::net_tests::{ONE_RELAY, RING};
use crate::report_tests::DIAMOND;
use crate::tests::{done, expect_further, expect_meeting};
use std::test::Fail;

/// Further words, and what the ring with a relay station prints over four rows.
static RINGS: &[(&[&str], &str)] = &[
    // without rounds the sweeps do all: the first sweeps of the machine are its last four
    (
        &["--workers", "2", "--rounds", "0", "--tally"],
        "y\n1\n0\n1\n0\nworker 0 turns 0 fired 0 voids 0 stops 0 dones 0\n\
worker 1 turns 0 fired 0 voids 0 stops 0 dones 0\nfinish 4 fired 17\n",
    ),
    // one worker makes sweeps alone: the same four, and 60 in which all are at their caps
    (
        &["--workers", "1", "--rounds", "64", "--tally"],
        "y\n1\n0\n1\n0\nworker 0 turns 320 fired 17 voids 2 stops 0 dones 301\nfinish 0 fired 0\n",
    ),
    (&["--workers", "2", "--rounds", "64"], "y\n1\n0\n1\n0\n"),
    (&["--workers", "64"], "y\n1\n0\n1\n0\n"),
    (&["--rounds", "1000000"], "y\n1\n0\n1\n0\n"),
    (&[], "y\n1\n0\n1\n0\n"),
];

/// Rows of the ring.
const FOUR: &str = "-\n-\n-\n-\n-\n";

/// The words of a free run with stations.
static STATIONED: &[&str] = &["free", "n.blif", "r.vec", "--stations", "s"];

#[test]
fn the_rows_are_strict_whatever_the_workers_do(rt: HostRuntime) -> Result<(), Fail> {
    let files = [("n.blif", RING), ("r.vec", FOUR), ("s", ONE_RELAY)];
    for (further, told) in RINGS {
        expect_further(&rt, STATIONED, further, &files, done(told))?;
    }
    Ok(())
}

#[test]
fn two_ways_of_unlike_length_are_run(rt: HostRuntime) -> Result<(), Fail> {
    let files = [
        ("n.blif", DIAMOND),
        ("r.vec", "x\n1\n1\n0\n1\n"),
        ("s", "lid-stations 2\nu0 u1 0 3 2 2 2 2\nu0 u2 0 0 3\n"),
    ];
    let further = ["--workers", "3", "--rounds", "50"];
    expect_further(&rt, STATIONED, &further, &files, done("y\n0\n0\n1\n0\n"))?;
    Ok(())
}

#[test]
fn two_workers_run_at_once(rt: HostRuntime) -> Result<(), Fail> {
    let files = [("n.blif", RING), ("r.vec", FOUR), ("s", ONE_RELAY)];
    let words = [
        "free",
        "n.blif",
        "r.vec",
        "--stations",
        "s",
        "--workers",
        "2",
        "--rounds",
        "1",
    ];
    expect_meeting(&rt, &words, &files, done("y\n1\n0\n1\n0\n"))?;
    Ok(())
}

//! Clocked runs under stalls, through the top call. What is expected is worked out by hand: a table of the firings
//! cycle by cycle, and what each station then holds of the strict streams.

use crate::tests::{NONE_FAILS, REGISTER, done, expect_run};
use std::test::Fail;

/// Rows, stalls, and what a register prints under them, with a trace of at most ten cycles. It has a station
/// before and one behind it, each of two places, and starts with a token in each.
static RUNS: &[(&str, &str, &str)] = &[
    // nobody is held
    (
        "d\n1\n0\n1\n",
        "lid-stalls 1\n",
        "q\n0\n1\n0\ncycles 3\nfired in 2\nfired u0 2\nfired out 3\nstalled 0\ntrace 2 3\n1 0\n0 1\n1 0\n",
    ),
    // the source is held once, so the register waits in the next cycle, and the sink in the one after
    (
        "d\n1\n0\n1\n",
        "lid-stalls 1\n0 in\n",
        "q\n0\n1\n0\ncycles 4\nfired in 2\nfired u0 2\nfired out 3\nstalled 1\ntrace 2 4\n1 0\n. 1\n0 .\n1 0\n",
    ),
    // both are held, then the sink, so the register waits for a token and then for room; the last stall is of a
    // cycle that is not made
    (
        "d\n1\n0\n1\n",
        "lid-stalls 1\n0 both\n1 out\n7 in\n",
        "q\n0\n1\n0\ncycles 5\nfired in 2\nfired u0 2\nfired out 3\nstalled 2\ntrace 2 5\n1 0\n. 0!\n0 0!\n0! 1\n1 0\n",
    ),
    // the source is held where it has no firing left: nothing is delayed
    (
        "d\n1\n0\n1\n",
        "lid-stalls 1\n2 in\n",
        "q\n0\n1\n0\ncycles 3\nfired in 2\nfired u0 2\nfired out 3\nstalled 1\ntrace 2 3\n1 0\n0 1\n1 0\n",
    ),
    // the sink is held in its last cycle
    (
        "d\n1\n",
        "lid-stalls 1\n0 out\n",
        "q\n0\ncycles 2\nfired in 0\nfired u0 0\nfired out 1\nstalled 1\ntrace 2 2\n1 0\n1 0\n",
    ),
    // without rows there is no cycle
    (
        "d\n",
        "lid-stalls 1\n0 both\n",
        "q\ncycles 0\nfired in 0\nfired u0 0\nfired out 0\nstalled 0\ntrace 2 0\n",
    ),
];

#[test]
fn a_run_waits_where_its_environment_does(rt: HostRuntime) -> Result<(), Fail> {
    for (rows, stalls, told) in RUNS {
        let files = [("n.blif", REGISTER), ("r.vec", *rows), ("f", *stalls)];
        let words = ["clock", "n.blif", "r.vec", "--stalls", "f", "--trace", "10"];
        expect_run(&rt, &words, &files, NONE_FAILS, done(told))?;
    }
    Ok(())
}

#[test]
fn a_run_under_stalls_needs_no_trace(rt: HostRuntime) -> Result<(), Fail> {
    let files = [
        ("n.blif", REGISTER),
        ("r.vec", "d\n1\n0\n1\n"),
        ("f", "lid-stalls 1\n0 in\n"),
    ];
    let told = "q\n0\n1\n0\ncycles 4\nfired in 2\nfired u0 2\nfired out 3\nstalled 1\n";
    let words = ["clock", "n.blif", "r.vec", "--stalls", "f"];
    expect_run(&rt, &words, &files, NONE_FAILS, done(told))?;
    Ok(())
}

//! Slack of channels and sizes of stations, through the top call. What is expected is worked out by hand from closed
//! walks of the marked graph.

use crate::net_tests::RING;
use crate::report_tests::DIAMOND;
use crate::tests::{NONE_FAILS, done, expect_run};
use std::alloc::AllocError;
use std::process::Abort;
use std::test::Fail;
use std::thread::Threads;

/// One relay station between the two registers of a ring.
const ONE_RELAY: &str = "lid-stations 1\nu0 u1 0 1\n";

/// Three relay stations on the shorter of two ways.
const THREE_RELAYS: &str = "lid-stations 1\nu0 u1 0 3\n";

/// Commands, netlists with their stations, and what is printed.
static TOLD: &[(&str, &str, &str, &str)] = &[
    // two tokens go round three stations, and one more station makes it four
    (
        "slack",
        RING,
        ONE_RELAY,
        "slack u0 u1 0 0 next 1/2\nslack u1 u0 0 0 next 1/2\nslack u1 out 0 64 next -\n",
    ),
    // further relay stations on the other way make it faster before they make it slower
    (
        "slack",
        DIAMOND,
        THREE_RELAYS,
        "slack in u0 0 64 next -\nslack u0 u1 0 0 next 3/7\nslack u0 u2 0 12 next 9/19\n\
slack u1 out 0 64 next -\nslack u2 u1 0 12 next 9/19\n",
    ),
    // a capacity of five on the other way takes what the longer one has
    (
        "size",
        DIAMOND,
        THREE_RELAYS,
        "lid-stations 2\nin u0 0 0 2\nu0 u1 0 3 2 2 2 2\nu0 u2 0 0 2\nu1 out 0 0 2\nu2 u1 0 0 5\n",
    ),
    // a ring is as slow as its stations along it, whatever they hold
    (
        "size",
        RING,
        ONE_RELAY,
        "lid-stations 1\nu0 u1 0 1\nu1 u0 0 0\nu1 out 0 0\n",
    ),
    // capacities that are given are not looked at
    (
        "size",
        RING,
        "lid-stations 2\nu0 u1 0 1 16 16\n",
        "lid-stations 1\nu0 u1 0 1\nu1 u0 0 0\nu1 out 0 0\n",
    ),
    // thirty stations on one way against two of 16
    (
        "size",
        DIAMOND,
        "lid-stations 1\nu0 u1 0 29\n",
        "short 0 31/32 of 1/1\n",
    ),
];

/// Runs a command on a netlist with stations.
fn expect_told<R: Threads + AllocGlobal + Sync + Abort>(
    rt: &R,
    command: &str,
    net: &str,
    stations: &str,
    told: &str,
) -> Result<(), AllocError> {
    let files = [("n.blif", net), ("s", stations)];
    let words = [command, "n.blif", "--stations", "s"];
    expect_run(rt, &words, &files, NONE_FAILS, done(told))
}

#[test]
fn slack_and_sizes_are_told(rt: HostRuntime) -> Result<(), Fail> {
    for (command, net, stations, told) in TOLD {
        expect_told(&rt, command, net, stations, told)?;
    }
    Ok(())
}

#[test]
fn sized_stations_have_the_forward_ratio(rt: HostRuntime) -> Result<(), Fail> {
    let files = [
        ("n.blif", DIAMOND),
        ("s", "lid-stations 2\nu0 u1 0 3 2 2 2 2\nu2 u1 0 0 5\n"),
    ];
    let words = ["slack", "n.blif", "--stations", "s", "--root", "dia"];
    let told = "slack in u0 0 64 next -\nslack u0 u1 0 0 next 6/7\nslack u0 u2 0 3 next 9/10\n\
slack u1 out 0 64 next -\nslack u2 u1 0 3 next 9/10\n";
    expect_run(&rt, &words, &files, NONE_FAILS, done(told))?;
    Ok(())
}

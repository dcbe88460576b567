//! Wrapped designs as netlists, through the top call: `strict` of what `emit` prints. What is expected is worked out by
//! hand, from how many tokens stations hold in each cycle.

use crate::net_tests::{ONE_RELAY, RING, wide_net};
use crate::tests::{NONE_FAILS, REGISTER, done, ended, expect_run, run_failing};
use std::alloc::{AllocError, Global};
use std::process::Abort;
use std::str::from_utf8;
use std::test::Fail;
use std::thread::Threads;

/// Netlists with their stations, rows of the wrapped design, and what it puts out.
static EMITTED: &[(&str, &str, &str, &str)] = &[
    // a register: a row that is offered is put out after a cycle, and where none comes nothing is offered
    (
        REGISTER,
        "lid-stations 1\n",
        "d li_in_valid li_out_stop\n110\n010\n110\n000\n000\n",
        "q li_out_valid li_in_stop\n010\n000\n110\n010\n110\n",
    ),
    // nobody takes what it puts out: two rows are accepted, and then it stops its source
    (
        REGISTER,
        "lid-stations 1\n",
        "d li_in_valid li_out_stop\n111\n111\n111\n111\n",
        "q li_out_valid li_in_stop\n010\n010\n010\n011\n",
    ),
    // a ring with one relay station gives two rows in three cycles, whatever is offered to it
    (
        RING,
        ONE_RELAY,
        "li_in_valid li_out_stop\n10\n00\n10\n10\n10\n10\n",
        "y li_out_valid li_in_stop\n110\n000\n010\n110\n000\n010\n",
    ),
];

/// Runs `strict` on a netlist for rows.
fn expect_strict<'x, R: Threads + AllocGlobal + Sync + Abort>(
    rt: &R,
    net: &'x str,
    rows: &'x str,
    told: &str,
) -> Result<(), AllocError> {
    let files = [("e.blif", net), ("r.vec", rows)];
    let words = ["strict", "e.blif", "r.vec"];
    expect_run(rt, &words, &files, NONE_FAILS, done(told))
}

/// Runs `strict` on what `emit` prints.
fn expect_emitted<'x, R: Threads + AllocGlobal + Sync + Abort>(
    rt: &R,
    net: &'x str,
    stations: &'x str,
    rows: &str,
    told: &str,
) -> Result<(), AllocError> {
    let files = [("n.blif", net), ("s", stations)];
    let words = ["emit", "n.blif", "--stations", "s"];
    let ran = run_failing(rt, &words, &files, NONE_FAILS)?;
    assert!(rt;
        ran.status == 0 && ran.err.written().is_empty(),
        "not emitted: {told}"
    );
    match from_utf8(ran.out.written()) {
        Ok(text) => expect_strict(rt, text, rows, told),
        Err(_) => expect_strict(rt, "", rows, told),
    }
}

#[test]
fn wrapped_designs_put_out_what_their_stations_hold(rt: HostRuntime) -> Result<(), Fail> {
    for (net, stations, rows, told) in EMITTED {
        expect_emitted(&rt, net, stations, rows, told)?;
    }
    Ok(())
}

/// Netlists whose ports have names that are taken, and what is said.
static TAKEN: &[(&str, &str)] = &[
    // a data input that is an output too
    (
        ".model t\n.inputs a\n.outputs a\n.subckt e\n.end\n.model e\n.end\n",
        "lid: emit NameTaken a\n",
    ),
    // the first data input that is an output too is told, not the first such output
    (
        ".model t\n.inputs a b\n.outputs b a\n.subckt e\n.end\n.model e\n.end\n",
        "lid: emit NameTaken a\n",
    ),
    // it is told like one that has a name that is wanted
    (
        ".model t\n.inputs a li_in_stop\n.outputs a\n.subckt e\n.end\n.model e\n.end\n",
        "lid: emit NameTaken a\n",
    ),
    // an input is told before an output
    (
        ".model t\n.inputs b li_in_stop\n.outputs li_out_valid\n.latch b li_out_valid 0\n.latch li_in_stop x 0\n.end\n",
        "lid: emit NameTaken li_in_stop\n",
    ),
    (
        ".model t\n.outputs a li_in_valid li_out_stop\n.latch a a 0\n.latch a li_in_valid 0\n.latch a li_out_stop 0\n.end\n",
        "lid: emit NameTaken li_in_valid\n",
    ),
];

#[test]
fn names_of_ports_that_are_taken_are_told(rt: HostRuntime) -> Result<(), Fail> {
    for (net, said) in TAKEN {
        let files = [("n.blif", *net)];
        let words = ["emit", "n.blif"];
        expect_run(&rt, &words, &files, NONE_FAILS, ended(1, said))?;
    }
    Ok(())
}

#[test]
fn a_long_channel_of_large_stations_is_too_big(rt: HostRuntime) -> Result<(), Fail> {
    let net = wide_net(rt.alloc())?;
    let mut stations = String::from_str(rt.alloc(), "lid-stations 2\nu0 u1 0 64")?;
    for _ in 0..65u32 {
        stations.push_str(" 16")?;
    }
    stations.push('\n')?;
    let files = [("n.blif", net.as_str()), ("s", stations.as_str())];
    let words = ["emit", "n.blif", "--stations", "s"];
    let left = ended(1, "lid: emit TooBig 33328\n");
    expect_run(&rt, &words, &files, NONE_FAILS, left)?;
    Ok(())
}

/// A name of a letter, so many times.
fn push_name(net: &mut String, letter: char, many: u32) -> Result<(), AllocError> {
    net.push(' ')?;
    for _ in 0..many {
        net.push(letter)?;
    }
    Ok(())
}

/// A model with sixteen inputs that nobody reads, of which fifteen have names of 1,024 letters: its size is 15,411 and
/// the letters of the last.
fn long_names(alloc: Global, last: u32) -> Result<String, AllocError> {
    let mut net = String::from_str(alloc, ".model m\n.inputs")?;
    for letter in "abcdefghijklmno".chars() {
        push_name(&mut net, letter, 1_024)?;
    }
    push_name(&mut net, 'p', last)?;
    net.push_str("\n.end\n")?;
    Ok(net)
}

#[test]
fn a_size_of_16384_is_emitted(rt: HostRuntime) -> Result<(), Fail> {
    let net = long_names(rt.alloc(), 973)?;
    let files = [("n.blif", net.as_str())];
    let words = ["emit", "n.blif"];
    let ran = run_failing(&rt, &words, &files, NONE_FAILS)?;
    assert!(&rt; ran.status == 0 && ran.err.written().is_empty());
    let net = long_names(rt.alloc(), 974)?;
    let files = [("n.blif", net.as_str())];
    let left = ended(1, "lid: emit TooBig 16385\n");
    expect_run(&rt, &words, &files, NONE_FAILS, left)?;
    Ok(())
}

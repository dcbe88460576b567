//! Clocked runs, through the top call. What is expected is worked out by hand from the firing counts and the
//! strict tables.

ghost use Rattle.std.specs.Prelude.{None, false};

use crate::net_tests::{ONE_RELAY, PIPE, RING, counted_rows, late_rows};
use crate::report_tests::DIAMOND;
use crate::tests::{
    Call, Failing, NONE_FAILS, REGISTER, Ran, done, ended, expect_calls, expect_further,
    expect_left, expect_run, left_by, run_failing, run_over, zeros,
};
use lid_base::{Shelf, ShelfFailed};
use std::test::Fail;

/// Clocked runs: netlist, rows, stations, cycles of the trace, and what is printed.
pub type Case = (
    &'static str,
    &'static str,
    &'static str,
    &'static str,
    &'static str,
);

pub static RUNS: &[Case] = &[
    // without rows there is no cycle
    (
        REGISTER,
        "d\n",
        "lid-stations 1\n",
        "1",
        "q\ncycles 0\nfired in 0\nfired u0 0\nfired out 0\ntrace 2 0\n",
    ),
    (
        REGISTER,
        "d\n1\n0\n1\n",
        "lid-stations 1\n",
        "2",
        "q\n0\n1\n0\ncycles 3\nfired in 2\nfired u0 2\nfired out 3\ntrace 2 2\n1 0\n0 1\n",
    ),
    // a ring with a relay station: a token needs a cycle for each of three stations, and there are two
    (
        RING,
        "-\n-\n-\n-\n-\n",
        "lid-stations 1\nu0 u1 0 1\n",
        "6",
        "y\n1\n0\n1\n0\ncycles 6\nfired in 3\nfired u0 3\nfired u1 3\nfired out 4\ntrace 4 6\n\
0 . 1 1\n1 0 . .\n. 1 0 0\n0 . 1 1\n1 0 . .\n. 1 0 0\n",
    ),
    // two ways, one with three relay stations: the other one stops
    (
        DIAMOND,
        "x\n1\n1\n0\n1\n",
        "lid-stations 1\nu0 u1 0 3\n",
        "3",
        "y\n0\n0\n1\n0\ncycles 7\nfired in 3\nfired u0 3\nfired u1 3\nfired u2 3\nfired out 4\n\
trace 8 3\n1 0 . . . 0 0 0\n1 1 0 . . 1 . 0!\n0 1 1 0 . 1! . 0!\n",
    ),
    // more room on the other way
    (
        DIAMOND,
        "x\n1\n1\n0\n1\n",
        "lid-stations 2\nu0 u1 0 3 2 2 2 2\nu0 u2 0 0 3\n",
        "4",
        "y\n0\n0\n1\n0\ncycles 7\nfired in 3\nfired u0 3\nfired u1 3\nfired u2 3\nfired out 4\n\
trace 8 4\n1 0 . . . 0 0 0\n1 1 0 . . 1 . 0!\n0 1 1 0 . 1 . 0!\n1 0 1 1 0 1! . 0!\n",
    ),
    // the output is an input of the root: source and sink are joined by a channel; the shell has none
    (
        ".model top\n.inputs x\n.outputs y\n.names x y\n1 1\n.subckt idle\n.end\n.model idle\n.end\n",
        "x\n1\n0\n",
        "lid-stations 1\n",
        "1",
        "y\n1\n0\ncycles 2\nfired in 1\nfired u0 1\nfired out 2\ntrace 1 1\n1\n",
    ),
];

/// The words of a clocked run with stations.
pub static STATIONED: &[&str] = &["clock", "n.blif", "r.vec", "--stations", "s"];

#[test]
fn stations_show_the_strict_streams(rt: HostRuntime) -> Result<(), Fail> {
    for (net, rows, stations, trace, told) in RUNS {
        let files = [("n.blif", *net), ("r.vec", *rows), ("s", *stations)];
        expect_further(&rt, STATIONED, &["--trace", trace], &files, done(told))?;
    }
    Ok(())
}

/// The files of a register with a long wire at its output.
static LONG: &[(&str, &str)] = &[
    ("one.blif", REGISTER),
    ("two.sta", "lid-stations 1\nu0 out 0 2\n"),
    ("one.vec", "d\n1\n0\n1\n"),
];

/// The words of its clocked run.
static LONG_WORDS: &[&str] = &["clock", "one.blif", "one.vec", "--stations", "two.sta"];

/// What it prints.
const LONG_OUT: &str = "q\n0\n1\n0\ncycles 5\nfired in 2\nfired u0 2\nfired out 3\n";

/// The calls that fail in this run, and what is left. The rows are fetched twice, the second time only as far as they are
/// needed.
static CALLS: &[Call] = &[
    (&[1], &[], &[], 3, "", "lid: read one.blif\n"),
    (&[2], &[], &[], 3, "", "lid: read one.blif\n"),
    (&[3], &[], &[], 3, "", "lid: read two.sta\n"),
    (&[4], &[], &[], 3, "", "lid: read two.sta\n"),
    (&[5], &[], &[], 3, "", "lid: read one.vec\n"),
    (&[6], &[], &[], 3, "", "lid: read one.vec\n"),
    (&[7], &[], &[], 3, "", "lid: read one.vec\n"),
    (&[8], &[], &[], 0, LONG_OUT, ""),
    (&[], &[1], &[], 4, "", "lid: write\n"),
    (&[], &[2], &[], 0, LONG_OUT, ""),
    (&[], &[1], &[1], 4, "", ""),
];

#[test]
fn each_failing_call_of_a_clocked_run_is_told(rt: HostRuntime) -> Result<(), Fail> {
    expect_calls(&rt, LONG_WORDS, LONG, CALLS)?;
    Ok(())
}

/// Stations on the register's output, and how they end its clocked run: the status, and what is printed or said.
static STATIONS: &[(&str, u8, &str)] = &[
    (
        "lid-stations 1\nu0 out 0 64\n",
        0,
        "q\n0\n1\n0\ncycles 67\nfired in 2\nfired u0 2\nfired out 3\n",
    ),
    (
        "lid-stations 1\nu0 out 0 65\n",
        1,
        "lid: stations TooMany 2\n",
    ),
    (
        "lid-stations 1\nu0 u1 0 0\n",
        1,
        "lid: stations NoChannel 2\n",
    ),
];

#[test]
fn stations_are_read_before_the_run(rt: HostRuntime) -> Result<(), Fail> {
    for (stations, status, told) in STATIONS {
        let files = [
            ("one.blif", REGISTER),
            ("two.sta", *stations),
            ("one.vec", "d\n1\n0\n1\n"),
        ];
        expect_run(&rt, LONG_WORDS, &files, NONE_FAILS, left_by(*status, told))?;
    }
    Ok(())
}

/// Traces of the ring with four stations: the greatest, and one cycle more.
static TRACES: &[(&str, &str, u8, &str)] = &[
    (
        "262145",
        "-\n-\n",
        1,
        "lid: trace Limit TraceCells 1048580\n",
    ),
    // rows are judged first
    ("262145", "-\n0\n", 1, "lid: rows Char 2\n"),
    // without rows a trace has no line
    (
        "262144",
        "-\n",
        0,
        "y\ncycles 0\nfired in 0\nfired u0 0\nfired u1 0\nfired out 0\ntrace 4 0\n",
    ),
];

#[test]
fn the_size_of_a_trace_is_judged_before_the_run(rt: HostRuntime) -> Result<(), Fail> {
    for (trace, rows, status, told) in TRACES {
        let files = [("n.blif", RING), ("r.vec", *rows), ("s", ONE_RELAY)];
        let left = left_by(*status, told);
        expect_further(&rt, STATIONED, &["--trace", trace], &files, left)?;
    }
    Ok(())
}

/// Whether a run could not read the rows after three pieces of output were written.
fn is_cut(ran: &Ran) -> bool {
    let said: &[u8] = b"lid: read one.vec\n";
    ran.status == 3 && ran.out.written().len() == 196_608 && ran.err.written() == said
}

#[test]
fn rows_are_streamed(rt: HostRuntime) -> Result<(), Fail> {
    let rows = zeros(rt.alloc(), "d\n", 200_000)?;
    let files = [("one.blif", REGISTER), ("one.vec", rows.as_str())];
    // two fetches of the netlist, eight of the rows to their end, and four of the rows again
    let failing = Failing {
        fetches: &[15],
        writes: &[],
        says: &[],
    };
    let ran = run_failing(&rt, &["clock", "one.blif", "one.vec"], &files, failing)?;
    assert!(rt; is_cut(&ran), "another status, line or number of bytes");
    Ok(())
}

/// Which write of a clocked run over 70,000 rows fails, and how many bytes are written then.
static WRITES: &[(u64, usize)] = &[(1, 0), (2, 65_536), (3, 131_072)];

/// Whether a write failed after so many bytes of a text.
fn is_broken(ran: &Ran, text: &[u8], written: usize) -> bool {
    let said: &[u8] = b"lid: write\n";
    ran.status == 4
        && ran.out.written().len() == written
        && text.starts_with(ran.out.written())
        && ran.err.written() == said
}

#[test]
fn each_piece_that_is_not_written_ends_the_run(rt: HostRuntime) -> Result<(), Fail> {
    let rows = zeros(rt.alloc(), "d\n", 70_000)?;
    let text = zeros(rt.alloc(), "q\n", 70_000)?;
    let files = [("one.blif", REGISTER), ("one.vec", rows.as_str())];
    for (write, written) in WRITES {
        let failing = Failing {
            fetches: &[],
            writes: &[*write],
            says: &[],
        };
        let ran = run_failing(&rt, &["clock", "one.blif", "one.vec"], &files, failing)?;
        assert!(&rt; is_broken(&ran, text.as_bytes(), *written), "write {write}");
    }
    Ok(())
}

/// A netlist, and a file of rows that holds others once it was read to its end. They come byte by byte, from a shelf that
/// tells nothing.
#[derive(Drop)]
struct Changing {
    then: &'static [u8],
    was_read: bool,
}

impl Shelf for Changing {
    ghost held = { λ _ _. None };

    ghost faults = { λ _ _. 0 };

    ghost fetches = { λ _. None };

    ghost whole = { false };

    fn fetch(&mut self, name: &str, at: u64, into: &mut [u8]) -> Result<usize, ShelfFailed> {
        let file: &[u8] = if name == "one.blif" {
            REGISTER.as_bytes()
        } else if self.was_read {
            self.then
        } else {
            b"d\n1\n0\n1\n"
        };
        let Some(byte) = file.get(at as usize) else {
            self.was_read = name != "one.blif";
            return Ok(0);
        };
        if into.is_empty() {
            return Ok(0);
        }
        into[0] = *byte;
        Ok(1)
    }
}

/// What the file of three rows holds when it is read again, and how the run ends: the status, and what is printed or
/// said.
static AGAIN: &[(&[u8], u8, &str)] = &[
    (b"d\n1\n0\n", 1, "lid: rows Changed 3 2\n"),
    (b"d\n", 1, "lid: rows Changed 3 0\n"),
    (b"", 1, "lid: rows Header\n"),
    (b"e\n1\n0\n1\n", 1, "lid: rows Header\n"),
    (b"d\nx\n0\n1\n", 1, "lid: rows Char 2\n"),
    (b"d\n1\n0\n10\n", 1, "lid: rows Width 4\n"),
    // it is read no further than the rows that are needed, and other rows are run as they are
    (
        b"d\n0\n1\n1\n1\nx\n",
        0,
        "q\n0\n0\n1\ncycles 3\nfired in 2\nfired u0 2\nfired out 3\n",
    ),
];

#[test]
fn rows_that_changed_are_told(rt: HostRuntime) -> Result<(), Fail> {
    for (then, status, told) in AGAIN {
        let mut shelf = Changing {
            then: *then,
            was_read: false,
        };
        let words = ["clock", "one.blif", "one.vec"];
        let ran = run_over(&rt, &words, &mut shelf, NONE_FAILS)?;
        expect_left(&rt, &ran, left_by(*status, told), told);
    }
    Ok(())
}

#[test]
fn a_pipeline_is_clocked(rt: HostRuntime) -> Result<(), Fail> {
    let rows = counted_rows(rt.alloc())?;
    let mut outs = late_rows(rt.alloc())?;
    outs.push_str("cycles 174\nfired in 99\nfired u0 99\nfired u1 99\nfired u2 99\nfired u3 99\n")?;
    outs.push_str("fired out 100\n")?;
    let files = [
        ("n.blif", PIPE),
        ("r.vec", rows.as_str()),
        ("s", "lid-stations 1\nu0 u1 0 2\nu3 u0 0 1\n"),
    ];
    expect_run(&rt, STATIONED, &files, NONE_FAILS, done(outs.as_str()))?;
    Ok(())
}

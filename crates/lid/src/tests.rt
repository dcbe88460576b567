//! Runs of the top call over files and sinks in memory.

ghost use Rattle.std.specs.Prelude.{None, false};

use lid_base::{
    Bytes, File, Gate, Items, MeetGate, MemShelf, MemSink, OpenGate, Shelf, ShelfFailed, Text,
    copy_name,
};
use lid_top::lid_run;
use std::alloc::{AllocError, Global};
use std::process::Abort;
use std::test::Fail;
use std::thread::Threads;

/// The register of the first example.
pub const REGISTER: &str = ".model one\n.inputs d\n.outputs q\n.latch d q 0\n.end\n";

/// What a run left: its status, and what it wrote.
#[derive(Drop)]
pub struct Ran {
    pub status: u8,
    pub out: MemSink,
    pub err: MemSink,
}

/// Which calls of the devices fail, counted from 1.
#[derive(Clone, Copy)]
pub struct Failing<'a> {
    pub fetches: &'a [u64],
    pub writes: &'a [u64],
    pub says: &'a [u64],
}

pub const NONE_FAILS: Failing<'static> = Failing {
    fetches: &[],
    writes: &[],
    says: &[],
};

/// What a run is to leave: its status, and all that it wrote.
#[derive(Clone, Copy)]
pub struct Left<'a> {
    pub status: u8,
    pub out: &'a str,
    pub err: &'a str,
}

/// What is left of a run that wrote its output.
pub fn done(out: &str) -> Left<'_> {
    Left {
        status: 0,
        out,
        err: "",
    }
}

/// What is left of a run that wrote nothing but its line on the standard error.
pub fn ended(status: u8, err: &str) -> Left<'_> {
    Left {
        status,
        out: "",
        err,
    }
}

/// What is left of a run that ended with a status: its output where that is 0, and its line otherwise.
pub fn left_by(status: u8, told: &str) -> Left<'_> {
    if status == 0 {
        done(told)
    } else {
        ended(status, told)
    }
}

fn words_of(alloc: Global, words: &[&str]) -> Result<Vec<Text>, AllocError> {
    let mut texts = Vec::new(alloc);
    for word in words {
        texts.push(Text::new(String::from_str(alloc, word)?))?;
    }
    Ok(texts)
}

fn bytes_of(alloc: Global, text: &str) -> Result<Bytes, AllocError> {
    Ok(Items::from_vec(Vec::from_slice(alloc, text.as_bytes())?))
}

fn file_of(alloc: Global, name: &str, text: &str) -> Result<File, AllocError> {
    Ok(File {
        name: copy_name(alloc, name.as_bytes())?,
        bytes: bytes_of(alloc, text)?,
    })
}

fn shelf_of(
    alloc: Global,
    files: &[(&str, &str)],
    fetches: &[u64],
) -> Result<MemShelf, AllocError> {
    let mut held = Vec::new(alloc);
    for (name, text) in files {
        held.push(file_of(alloc, name, text)?)?;
    }
    Ok(MemShelf::new(held, Vec::from_slice(alloc, fetches)?))
}

fn sink_of(alloc: Global, writes: &[u64]) -> Result<MemSink, AllocError> {
    let failing = Vec::from_slice(alloc, writes)?;
    MemSink::new(alloc, 1_048_576, failing)
}

/// The words of a line, at its blanks.
pub fn split_words<'a>(alloc: Global, line: &'a str) -> Result<Vec<&'a str>, AllocError> {
    let mut words = Vec::new(alloc);
    for word in line.split(' ') {
        words.push(word)?;
    }
    Ok(words)
}

/// Runs the words over a shelf in memory.
pub fn run_over<R: Threads + AllocGlobal + Sync, S: Shelf>(
    rt: &R,
    words: &[&str],
    shelf: &mut S,
    failing: Failing<'_>,
) -> Result<Ran, AllocError> {
    let words = words_of(rt.alloc(), words)?;
    let out = sink_of(rt.alloc(), failing.writes)?;
    let err = sink_of(rt.alloc(), failing.says)?;
    Ok(run_words(rt, &words, shelf, out, err, &OpenGate))
}

/// Runs the words over files in memory, on workers that pass a gate.
pub fn run_gated<R: Threads + AllocGlobal + Sync, G: Gate>(
    rt: &R,
    words: &[&str],
    files: &[(&str, &str)],
    gate: &G,
) -> Result<Ran, AllocError> {
    let mut shelf = shelf_of(rt.alloc(), files, &[])?;
    let words = words_of(rt.alloc(), words)?;
    let out = sink_of(rt.alloc(), &[])?;
    let err = sink_of(rt.alloc(), &[])?;
    Ok(run_words(rt, &words, &mut shelf, out, err, gate))
}

/// Runs the words, and keeps what is left.
fn run_words<R: Threads + AllocGlobal + Sync, S: Shelf, G: Gate>(
    rt: &R,
    words: &[Text],
    shelf: &mut S,
    mut out: MemSink,
    mut err: MemSink,
    gate: &G,
) -> Ran {
    let status = lid_run(rt, words, shelf, &mut out, &mut err, gate);
    Ran { status, out, err }
}

/// Runs the words over files in memory.
pub fn run_failing<R: Threads + AllocGlobal + Sync>(
    rt: &R,
    words: &[&str],
    files: &[(&str, &str)],
    failing: Failing<'_>,
) -> Result<Ran, AllocError> {
    let mut shelf = shelf_of(rt.alloc(), files, failing.fetches)?;
    run_over(rt, words, &mut shelf, failing)
}

/// Whether a run left this.
fn is_left(ran: &Ran, left: Left<'_>) -> bool {
    ran.status == left.status
        && ran.out.written() == left.out.as_bytes()
        && ran.err.written() == left.err.as_bytes()
}

/// A run left this.
pub fn expect_left(rt: &impl Abort, ran: &Ran, left: Left<'_>, case: &str) {
    assert!(rt; is_left(ran, left), "another status or other texts: {case}");
}

/// Runs the words over files in memory, and compares all that is left.
pub fn expect_run<R: Threads + AllocGlobal + Sync + Abort>(
    rt: &R,
    words: &[&str],
    files: &[(&str, &str)],
    failing: Failing<'_>,
    left: Left<'_>,
) -> Result<(), AllocError> {
    let ran = run_failing(rt, words, files, failing)?;
    let case = match words.last() {
        Some(word) => word,
        None => "",
    };
    expect_left(rt, &ran, left, case);
    Ok(())
}

/// Runs words and further ones behind them over files in memory, and compares all that is left.
pub fn expect_further<'w, R: Threads + AllocGlobal + Sync + Abort>(
    rt: &R,
    words: &[&'w str],
    further: &[&'w str],
    files: &[(&str, &str)],
    left: Left<'_>,
) -> Result<(), AllocError> {
    let mut all = Vec::from_slice(rt.alloc(), words)?;
    all.extend_from_slice(further)?;
    expect_run(rt, all.as_slice(), files, NONE_FAILS, left)
}

/// Runs words on two workers, who must meet at the gate, and compares all that is left.
pub fn expect_meeting<R: Threads + AllocGlobal + Sync + Abort>(
    rt: &R,
    words: &[&str],
    files: &[(&str, &str)],
    left: Left<'_>,
) -> Result<(), AllocError> {
    let gate = MeetGate::new(2, 2_000_000_000);
    let ran = run_gated(rt, words, files, &gate)?;
    expect_left(rt, &ran, left, "two workers");
    assert!(rt; gate.met());
    Ok(())
}

/// Runs `strict` of a netlist and rows, and compares all that is left.
pub fn expect_strict<R: Threads + AllocGlobal + Sync + Abort>(
    rt: &R,
    net: &str,
    rows: &str,
    left: Left<'_>,
) -> Result<(), AllocError> {
    let files = [("one.blif", net), ("one.vec", rows)];
    let ran = run_failing(rt, &["strict", "one.blif", "one.vec"], &files, NONE_FAILS)?;
    expect_left(rt, &ran, left, net);
    Ok(())
}

/// Runs `strict` of netlists and rows that are accepted, and compares the outputs.
pub fn expect_outputs<R: Threads + AllocGlobal + Sync + Abort>(
    rt: &R,
    cases: &[(&str, &str, &str)],
) -> Result<(), AllocError> {
    for (net, rows, out) in cases {
        let left = done(out);
        expect_strict(rt, net, rows, left)?;
    }
    Ok(())
}

/// Netlists that run, with their rows and outputs.
static RUNS: &[(&str, &str, &str)] = &[
    // a register delays its rows by one
    (REGISTER, "d\n1\n0\n1\n", "q\n0\n1\n0\n"),
    // latches begin as is written
    (
        ".model two\n.inputs d\n.outputs p q\n.latch d p 1\n.latch p q\n.end\n",
        "d\n1\n0\n1\n",
        "p q\n10\n11\n01\n",
    ),
    (
        ".model two\n.inputs d\n.outputs p q\n.latch d p 2\n.latch p q 3\n",
        "d\n1\n0\n",
        "p q\n00\n10\n",
    ),
    // rows with output 0 are off rows
    (
        ".model m\n.inputs a b\n.outputs q\n.names a b n\n11 0\n.latch n q 0\n.end\n",
        "a b\n11\n10\n00\n11\n",
        "q\n0\n0\n1\n1\n",
    ),
    // no rows give no rows
    (REGISTER, "d\n", "q\n"),
];

#[test]
fn small_netlists_run(rt: HostRuntime) -> Result<(), Fail> {
    expect_outputs(&rt, RUNS)?;
    Ok(())
}

/// Rows that do not read for the register, with what is told.
static UNREAD_ROWS: &[(&str, &str)] = &[
    ("d\n10\n", "lid: rows Width 2\n"),
    ("e\n1\n", "lid: rows Header\n"),
    ("d\nx\n", "lid: rows Char 2\n"),
    ("", "lid: rows Header\n"),
    ("d\n1\n\u{7f}\n", "lid: rows Char 3\n"),
];

/// Netlists that do not read, with what is told.
static UNREAD_NETS: &[(&str, &str)] = &[
    ("", "lid: blif NoModel 0\n"),
    (".inputs a\n", "lid: blif NoModel 1\n"),
    (
        ".model m\n.gate nand2 A=a\n.end\n",
        "lid: blif Unsupported 2\n",
    ),
    (".model m n\n", "lid: blif Arity 1\n"),
    (".model m\n1 1\n", "lid: blif RowOutside 2\n"),
    (
        ".model m\n.inputs a\n.names a q\n1\n",
        "lid: blif RowShape 4\n",
    ),
    (
        ".model m\n.inputs a\n.names a x\n1 1\n0 0\n.latch x q 0\n.end\n",
        "lid: blif MixedRows 5\n",
    ),
    (".model m\n.latch a q ah c 0\n", "lid: blif LatchType 2\n"),
    (".model m\n.latch a q 4\n", "lid: blif LatchInit 2\n"),
    (".model m\n.subckt n a\n", "lid: blif BindShape 2\n"),
    (".model m\n.end\n.model m\n", "lid: blif DuplicateModel 3\n"),
    (".model m\n.inputs \u{8}\n", "lid: blif BadByte 2\n"),
];

#[test]
fn texts_that_do_not_read_are_told(rt: HostRuntime) -> Result<(), Fail> {
    for (rows, told) in UNREAD_ROWS {
        expect_strict(&rt, REGISTER, rows, ended(1, told))?;
    }
    for (net, told) in UNREAD_NETS {
        expect_strict(&rt, net, "d\n", ended(1, told))?;
    }
    Ok(())
}

/// The files of the runs that vary in their words.
static FILES: &[(&str, &str)] = &[
    ("one.blif", REGISTER),
    ("one.vec", "d\n1\n0\n"),
    ("-", "d\n1\n0\n"),
    ("--vec", "d\n1\n0\n"),
];

/// Runs each of some words, and compares what is left.
fn expect_words<R: Threads + AllocGlobal + Sync + Abort>(
    rt: &R,
    cases: &[&[&str]],
    left: Left<'_>,
) -> Result<(), AllocError> {
    for words in cases {
        expect_run(rt, words, FILES, NONE_FAILS, left)?;
    }
    Ok(())
}

/// Words that are no job.
static NO_JOBS: &[&[&str]] = &[
    &[],
    &[""],
    &["strict"],
    &["strict", "one.blif"],
    &["strict", "one.blif", "one.vec", "one.vec"],
    &["strict", "--root", "one.blif"],
    &["strict", "one.blif", "one.vec", "--root"],
    &[
        "strict", "--root", "a", "--root", "a", "one.blif", "one.vec",
    ],
    &["strict", "one.blif", "one.vec", "--workers", "2"],
    &["strict", "one.blif", "one.vec", "--tally"],
    &["strict", "one.blif", "one.vec", "--help"],
    &["strict", "one.blif", "one.vec", "-h"],
    &["strict", "one.blif", "one.vec", "--version"],
    &["stric", "one.blif", "one.vec"],
    &["clock", "one.blif"],
    &["\u{e9}", "one.blif", "one.vec"],
];

#[test]
fn other_words_are_no_job(rt: HostRuntime) -> Result<(), Fail> {
    let left = ended(2, "lid: usage\n");
    expect_words(&rt, NO_JOBS, left)?;
    Ok(())
}

/// Words in which options stand before, between and after the files.
static JOBS: &[&[&str]] = &[
    &["strict", "one.blif", "one.vec"],
    &["strict", "--root", "one", "one.blif", "one.vec"],
    &["--root", "one", "strict", "one.blif", "one.vec"],
    &["strict", "one.blif", "--root=one", "one.vec"],
    &["strict", "one.blif", "one.vec", "--root", "one"],
    &["strict", "--", "one.blif", "one.vec"],
    &["strict", "one.blif", "--", "--vec"],
    &["strict", "one.blif", "-"],
];

#[test]
fn options_stand_before_between_and_after_files(rt: HostRuntime) -> Result<(), Fail> {
    let left = done("q\n0\n1\n");
    expect_words(&rt, JOBS, left)?;
    Ok(())
}

/// Words with a root that no model has.
static ROOTLESS: &[&[&str]] = &[
    &["strict", "one.blif", "one.vec", "--root", "two"],
    &["strict", "one.blif", "one.vec", "--root="],
];

#[test]
fn a_root_that_no_model_has_is_refused(rt: HostRuntime) -> Result<(), Fail> {
    let left = ended(1, "lid: check NoRoot\n");
    expect_words(&rt, ROOTLESS, left)?;
    Ok(())
}

/// The files of the example's run.
static EXAMPLE: &[(&str, &str)] = &[("one.blif", REGISTER), ("one.vec", "d\n1\n0\n1\n")];

/// The calls that fail in a run (fetches, writes of the output, writes of the line), and what is left: the status, the
/// output and the line.
pub type Call = (
    &'static [u64],
    &'static [u64],
    &'static [u64],
    u8,
    &'static str,
    &'static str,
);

/// Those of a run of the example.
static CALLS: &[Call] = &[
    (&[1], &[], &[], 3, "", "lid: read one.blif\n"),
    (&[2], &[], &[], 3, "", "lid: read one.blif\n"),
    (&[3], &[], &[], 3, "", "lid: read one.vec\n"),
    (&[4], &[], &[], 3, "", "lid: read one.vec\n"),
    (&[5], &[], &[], 0, "q\n0\n1\n0\n", ""),
    (&[], &[1], &[], 4, "", "lid: write\n"),
    (&[], &[2], &[], 0, "q\n0\n1\n0\n", ""),
    (&[], &[1], &[1], 4, "", ""),
    (&[], &[], &[1], 0, "q\n0\n1\n0\n", ""),
    (&[], &[1], &[3], 4, "", "lid: "),
];

/// Runs words with calls that fail.
fn expect_call<R: Threads + AllocGlobal + Sync + Abort>(
    rt: &R,
    words: &[&str],
    files: &[(&str, &str)],
    call: Call,
) -> Result<(), AllocError> {
    let (fetches, writes, says, status, out, err) = call;
    let failing = Failing {
        fetches,
        writes,
        says,
    };
    expect_run(rt, words, files, failing, Left { status, out, err })
}

/// Runs words with each of these calls that fail.
pub fn expect_calls<R: Threads + AllocGlobal + Sync + Abort>(
    rt: &R,
    words: &[&str],
    files: &[(&str, &str)],
    calls: &[Call],
) -> Result<(), AllocError> {
    for call in calls {
        expect_call(rt, words, files, *call)?;
    }
    Ok(())
}

#[test]
fn each_failing_call_is_told(rt: HostRuntime) -> Result<(), Fail> {
    expect_calls(&rt, &["strict", "one.blif", "one.vec"], EXAMPLE, CALLS)?;
    Ok(())
}

#[test]
fn a_failing_err_changes_no_status(rt: HostRuntime) -> Result<(), Fail> {
    let failing = Failing {
        fetches: &[],
        writes: &[],
        says: &[1],
    };
    let left = ended(2, "");
    expect_run(&rt, &["clock"], &[], failing, left)?;
    Ok(())
}

/// A header line, and so many rows of one 0.
pub fn zeros(alloc: Global, header: &str, rows: u32) -> Result<String, AllocError> {
    let mut text = String::from_str(alloc, header)?;
    for _ in 0..rows {
        text.push_str("0\n")?;
    }
    Ok(text)
}

/// Whether a run ended with a status after so many bytes of output.
fn has_written(ran: &Ran, status: u8, written: usize) -> bool {
    let said: &[u8] = if status == 0 { b"" } else { b"lid: write\n" };
    ran.status == status && ran.out.written().len() == written && ran.err.written() == said
}

/// Runs the register over many rows, and compares the status and how much was written.
fn expect_pieces<R: Threads + AllocGlobal + Sync + Abort>(
    rt: &R,
    rows: &str,
    failing: Failing<'_>,
    status: u8,
    written: usize,
) -> Result<(), AllocError> {
    let files = [("one.blif", REGISTER), ("one.vec", rows)];
    let ran = run_failing(rt, &["strict", "one.blif", "one.vec"], &files, failing)?;
    assert!(rt; has_written(&ran, status, written), "status {status}");
    Ok(())
}

#[test]
fn a_long_output_is_written_in_pieces(rt: HostRuntime) -> Result<(), Fail> {
    let rows = zeros(rt.alloc(), "d\n", 70_000)?;
    expect_pieces(&rt, rows.as_str(), NONE_FAILS, 0, 140_002)?;
    let failing = Failing {
        fetches: &[],
        writes: &[3],
        says: &[],
    };
    expect_pieces(&rt, rows.as_str(), failing, 4, 131_072)?;
    Ok(())
}

/// Two files that come byte by byte, from a shelf that tells nothing.
#[derive(Drop)]
struct Drip<'a> {
    net: &'a [u8],
    vec: &'a [u8],
}

impl Shelf for Drip<'_> {
    ghost held = { λ _ _. None };

    ghost faults = { λ _ _. 0 };

    ghost fetches = { λ _. None };

    ghost whole = { false };

    fn fetch(&mut self, name: &str, at: u64, into: &mut [u8]) -> Result<usize, ShelfFailed> {
        let file = if name == "one.blif" {
            self.net
        } else {
            self.vec
        };
        let Some(byte) = file.get(at as usize) else {
            return Ok(0);
        };
        if into.is_empty() {
            return Ok(0);
        }
        into[0] = *byte;
        Ok(1)
    }
}

#[test]
fn a_file_ends_only_at_a_fetch_of_no_bytes(rt: HostRuntime) -> Result<(), Fail> {
    let mut shelf = Drip {
        net: REGISTER.as_bytes(),
        vec: b"d\n1\n0\n1\n",
    };
    let words = ["strict", "one.blif", "one.vec"];
    let ran = run_over(&rt, &words, &mut shelf, NONE_FAILS)?;
    let left = done("q\n0\n1\n0\n");
    expect_left(&rt, &ran, left, "byte by byte");
    Ok(())
}

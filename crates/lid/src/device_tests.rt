//! Failing devices: each fetch and each write of one job of each command fails in turn. Which files are fetched, and how
//! often, is told by hand from the steps of each command: a file is fetched to a fetch of no bytes.

use crate::tests::{Failing, Left, REGISTER, expect_left, run_failing};
use std::alloc::AllocError;
use std::process::Abort;
use std::test::Fail;
use std::thread::Threads;

/// A certificate of the register without relay stations.
const CERT: &str =
    "lid-cert 1\npart 3\nratio 1 1\ncycle 0 1\nnode 0 0 0 0 -\nnode 1 0 1 1 0\nnode 2 0 2 2 2\n";

/// The files of all jobs.
static FILES: &[(&str, &str)] = &[
    ("n.blif", REGISTER),
    ("r.vec", "d\n1\n0\n1\n"),
    ("stations", "lid-stations 1\nu0 out 0 1\n"),
    ("stalls", "lid-stalls 1\n1 in\n"),
    ("schedule", "0 1\n"),
    ("wires", "lid-wires 1\nu0 out 0 2500\n"),
    ("cert", CERT),
    (
        "dump",
        "$timescale 1 ns $end\n$scope module lid $end\n$upscope $end\n$enddefinitions $end\n#0\n",
    ),
];

/// A job, and the file of each of its fetches in order.
type Job = (&'static [&'static str], &'static [&'static str]);

static JOBS: &[Job] = &[
    (&["check", "n.blif"], &["n.blif", "n.blif"]),
    (
        &["strict", "n.blif", "r.vec"],
        &["n.blif", "n.blif", "r.vec", "r.vec"],
    ),
    // the rows are fetched a second time as the run needs them: here in one piece
    (
        &[
            "clock",
            "n.blif",
            "r.vec",
            "--stations",
            "stations",
            "--stalls",
            "stalls",
        ],
        &[
            "n.blif", "n.blif", "stations", "stations", "stalls", "stalls", "r.vec", "r.vec",
            "r.vec",
        ],
    ),
    (
        &["clock", "n.blif", "r.vec", "--workers", "2"],
        &["n.blif", "n.blif", "r.vec", "r.vec", "r.vec"],
    ),
    (
        &[
            "walk",
            "n.blif",
            "r.vec",
            "--schedule",
            "schedule",
            "--stations",
            "stations",
        ],
        &[
            "n.blif", "n.blif", "stations", "stations", "r.vec", "r.vec", "schedule", "schedule",
        ],
    ),
    (
        &["free", "n.blif", "r.vec", "--stations", "stations"],
        &["n.blif", "n.blif", "stations", "stations", "r.vec", "r.vec"],
    ),
    (
        &[
            "wave",
            "n.blif",
            "r.vec",
            "--trace",
            "3",
            "--stations",
            "stations",
        ],
        &["n.blif", "n.blif", "stations", "stations", "r.vec", "r.vec"],
    ),
    (&["unwave", "dump"], &["dump", "dump"]),
    (
        &["place", "n.blif", "--wires", "wires", "--reach", "1000"],
        &["n.blif", "n.blif", "wires", "wires"],
    ),
    (
        &["rate", "n.blif", "--stations", "stations"],
        &["n.blif", "n.blif", "stations", "stations"],
    ),
    (
        &["slack", "n.blif", "--stations", "stations"],
        &["n.blif", "n.blif", "stations", "stations"],
    ),
    (
        &["size", "n.blif", "--stations", "stations"],
        &["n.blif", "n.blif", "stations", "stations"],
    ),
    (
        &["verify", "n.blif", "cert"],
        &["n.blif", "n.blif", "cert", "cert"],
    ),
    (
        &["emit", "n.blif", "--stations", "stations"],
        &["n.blif", "n.blif", "stations", "stations"],
    ),
    (&["gen", "1", "--shells", "1"], &[]),
];

/// One fetch fails: nothing is written, and the file is named.
fn expect_fetch<R: Threads + AllocGlobal + Sync + Abort>(
    rt: &R,
    words: &[&str],
    fetch: u64,
    file: &str,
) -> Result<(), AllocError> {
    let failing = Failing {
        fetches: &[fetch],
        writes: &[],
        says: &[],
    };
    let ran = run_failing(rt, words, FILES, failing)?;
    let mut said = String::from_str(rt.alloc(), "lid: read ")?;
    said.push_str(file)?;
    said.push('\n')?;
    let left = Left {
        status: 3,
        out: "",
        err: said.as_str(),
    };
    expect_left(rt, &ran, left, file);
    Ok(())
}

/// A call fails that is not made: the job is done.
fn expect_done<R: Threads + AllocGlobal + Sync + Abort>(
    rt: &R,
    words: &[&str],
    failing: Failing<'_>,
) -> Result<(), AllocError> {
    let ran = run_failing(rt, words, FILES, failing)?;
    assert!(rt; ran.status == 0 && !ran.out.written().is_empty() && ran.err.written().is_empty());
    Ok(())
}

/// The first write fails: nothing is written.
fn expect_unwritten<R: Threads + AllocGlobal + Sync + Abort>(
    rt: &R,
    words: &[&str],
) -> Result<(), AllocError> {
    let failing = Failing {
        fetches: &[],
        writes: &[1],
        says: &[],
    };
    let ran = run_failing(rt, words, FILES, failing)?;
    let left = Left {
        status: 4,
        out: "",
        err: "lid: write\n",
    };
    expect_left(rt, &ran, left, "the first write");
    Ok(())
}

#[test]
fn each_fetch_that_fails_names_its_file(rt: HostRuntime) -> Result<(), Fail> {
    for (words, files) in JOBS {
        let mut fetch = 1u64;
        for file in *files {
            expect_fetch(&rt, words, fetch, file)?;
            fetch = fetch.saturating_add(1);
        }
        let fetches = [fetch];
        let failing = Failing {
            fetches: &fetches,
            writes: &[],
            says: &[],
        };
        expect_done(&rt, words, failing)?;
    }
    Ok(())
}

#[test]
fn each_write_that_fails_is_told(rt: HostRuntime) -> Result<(), Fail> {
    for (words, _) in JOBS {
        expect_unwritten(&rt, words)?;
        let failing = Failing {
            fetches: &[],
            writes: &[2],
            says: &[],
        };
        expect_done(&rt, words, failing)?;
    }
    Ok(())
}

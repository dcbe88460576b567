//! Stops of every command: what is at fault is told, whatever else is at fault behind it, and nothing is written.

use crate::report_tests::with_readers;
use crate::tests::{NONE_FAILS, REGISTER, ended, expect_left, run_failing, split_words};
use std::alloc::AllocError;
use std::process::Abort;
use std::test::Fail;
use std::thread::Threads;

/// The files of all stops: sound ones, and ones at fault. There is no file `none`.
static FILES: &[(&str, &str)] = &[
    ("net", REGISTER),
    ("unread", ".model m n\n"),
    (
        "refused",
        ".model m\n.inputs d\n.outputs q\n.latch e q 0\n.end\n",
    ),
    (
        "taken",
        ".model t\n.inputs a\n.outputs a\n.subckt e\n.end\n.model e\n.end\n",
    ),
    ("rows", "d\n1\n0\n1\n"),
    ("wide", "d\n1\n10\n"),
    ("stations", "lid-stations 1\nu0 out 0 1\n"),
    ("nowhere", "lid-stations 1\nu0 out 1 0\n"),
    ("twice", "lid-stations 1\nu0 out 0 1\nu0 out 0 2\n"),
    ("many", "lid-stations 1\nu0 out 0 65\n"),
    ("large", "lid-stations 2\nu0 out 0 0 17\n"),
    ("third", "lid-stations 3\n"),
    ("countless", "lid-stations 1\nu0 out 0\n"),
    ("stalls", "lid-stalls 1\n1 in\n"),
    ("order", "lid-stalls 1\n3 in\n3 out\n"),
    ("nameless", "lid-stalls 1\nx in\n"),
    ("second", "lid-stalls 2\n"),
    ("schedule", "0 1\n"),
    ("nobody", "0 9\n"),
    ("letter", "0\n\n1 x\n"),
    ("zero", "0\n01\n"),
    ("wires", "lid-wires 1\nu0 out 0 2500\n"),
    ("short", "lid-wires 1\nu0 out 0 0\n"),
    ("cert", "lid-cert 1\n"),
    ("cut", "lid-cert 2\n"),
    ("dump", "$end\n"),
];

/// Jobs that stop, by their words, the status, and the line. Each file that comes after the one at fault is at fault
/// too, or is not there.
static STOPS: &[(&str, u8, &str)] = &[
    ("check none", 3, "lid: read none\n"),
    ("check unread", 1, "lid: blif Arity 1\n"),
    ("check refused", 1, "lid: check Undriven m e\n"),
    ("check net --root m", 1, "lid: check NoRoot\n"),
    ("strict none wide", 3, "lid: read none\n"),
    ("strict unread wide", 1, "lid: blif Arity 1\n"),
    ("strict refused wide", 1, "lid: check Undriven m e\n"),
    ("strict net none", 3, "lid: read none\n"),
    ("strict net wide", 1, "lid: rows Width 3\n"),
    (
        "clock none wide --stations twice --stalls order --trace 524289",
        3,
        "lid: read none\n",
    ),
    (
        "clock unread wide --stations twice --stalls order --trace 524289",
        1,
        "lid: blif Arity 1\n",
    ),
    (
        "clock refused wide --stations twice --stalls order --trace 524289",
        1,
        "lid: check Undriven m e\n",
    ),
    (
        "clock net wide --stations none --stalls order --trace 524289",
        3,
        "lid: read none\n",
    ),
    (
        "clock net wide --stations twice --stalls order --trace 524289",
        1,
        "lid: stations Twice 3\n",
    ),
    (
        "clock net wide --stations countless --stalls nameless",
        1,
        "lid: stations Word 2\n",
    ),
    (
        "clock net wide --stalls none --trace 524289",
        3,
        "lid: read none\n",
    ),
    (
        "clock net wide --stalls order --trace 524289",
        1,
        "lid: stalls Order 3\n",
    ),
    (
        "clock net wide --stalls nameless",
        1,
        "lid: stalls Word 2\n",
    ),
    ("clock net wide --stalls second", 1, "lid: stalls Word 1\n"),
    ("clock net none --trace 524289", 3, "lid: read none\n"),
    (
        "clock net wide --stalls stalls --trace 524289",
        1,
        "lid: rows Width 3\n",
    ),
    (
        "clock net rows --trace 524289",
        1,
        "lid: trace Limit TraceCells 1048578\n",
    ),
    (
        "walk none wide --stations twice --schedule nobody",
        3,
        "lid: read none\n",
    ),
    (
        "walk unread wide --stations twice --schedule nobody",
        1,
        "lid: blif Arity 1\n",
    ),
    (
        "walk refused wide --stations twice --schedule nobody",
        1,
        "lid: check Undriven m e\n",
    ),
    (
        "walk net wide --stations none --schedule nobody",
        3,
        "lid: read none\n",
    ),
    (
        "walk net wide --stations twice --schedule nobody",
        1,
        "lid: stations Twice 3\n",
    ),
    ("walk net none --schedule nobody", 3, "lid: read none\n"),
    ("walk net wide --schedule nobody", 1, "lid: rows Width 3\n"),
    ("walk net rows --schedule none", 3, "lid: read none\n"),
    (
        "walk net rows --schedule nobody",
        1,
        "lid: schedule NoActor 1\n",
    ),
    (
        "walk net rows --schedule letter",
        1,
        "lid: schedule Word 3\n",
    ),
    ("walk net rows --schedule zero", 1, "lid: schedule Word 2\n"),
    ("free none wide --stations twice", 3, "lid: read none\n"),
    (
        "free unread wide --stations twice",
        1,
        "lid: blif Arity 1\n",
    ),
    (
        "free refused wide --stations twice",
        1,
        "lid: check Undriven m e\n",
    ),
    ("free net wide --stations none", 3, "lid: read none\n"),
    (
        "free net wide --stations twice",
        1,
        "lid: stations Twice 3\n",
    ),
    ("free net none", 3, "lid: read none\n"),
    ("free net wide", 1, "lid: rows Width 3\n"),
    (
        "wave none wide --stations twice --trace 524289",
        3,
        "lid: read none\n",
    ),
    (
        "wave unread wide --stations twice --trace 524289",
        1,
        "lid: blif Arity 1\n",
    ),
    (
        "wave refused wide --stations twice --trace 524289",
        1,
        "lid: check Undriven m e\n",
    ),
    (
        "wave net wide --stations none --trace 524289",
        3,
        "lid: read none\n",
    ),
    (
        "wave net wide --stations twice --trace 524289",
        1,
        "lid: stations Twice 3\n",
    ),
    ("wave net none --trace 524289", 3, "lid: read none\n"),
    ("wave net wide --trace 524289", 1, "lid: rows Width 3\n"),
    (
        "wave net rows --trace 524289",
        1,
        "lid: trace Limit TraceCells 1048578\n",
    ),
    (
        "wave net rows --stations stations --trace 349526",
        1,
        "lid: trace Limit TraceCells 1048578\n",
    ),
    ("unwave none", 3, "lid: read none\n"),
    ("unwave dump", 1, "lid: vcd Word 1\n"),
    ("place none --wires short --reach 1", 3, "lid: read none\n"),
    (
        "place unread --wires short --reach 1",
        1,
        "lid: blif Arity 1\n",
    ),
    (
        "place refused --wires short --reach 1",
        1,
        "lid: check Undriven m e\n",
    ),
    ("place net --wires none --reach 1", 3, "lid: read none\n"),
    (
        "place net --wires short --reach 1",
        1,
        "lid: stations ZeroLength 2\n",
    ),
    (
        "place net --wires wires --reach 1",
        1,
        "lid: stations TooMany 2\n",
    ),
    ("rate none --stations twice", 3, "lid: read none\n"),
    ("rate unread --stations twice", 1, "lid: blif Arity 1\n"),
    (
        "rate refused --stations twice",
        1,
        "lid: check Undriven m e\n",
    ),
    ("rate net --stations none", 3, "lid: read none\n"),
    (
        "rate net --stations nowhere",
        1,
        "lid: stations NoChannel 2\n",
    ),
    ("rate net --stations twice", 1, "lid: stations Twice 3\n"),
    ("rate net --stations many", 1, "lid: stations TooMany 2\n"),
    ("rate net --stations large", 1, "lid: stations Capacity 2\n"),
    ("rate net --stations third", 1, "lid: stations Word 1\n"),
    ("slack none --stations twice", 3, "lid: read none\n"),
    ("slack unread --stations twice", 1, "lid: blif Arity 1\n"),
    (
        "slack refused --stations twice",
        1,
        "lid: check Undriven m e\n",
    ),
    ("slack net --stations none", 3, "lid: read none\n"),
    ("slack net --stations twice", 1, "lid: stations Twice 3\n"),
    ("size none --stations twice", 3, "lid: read none\n"),
    ("size unread --stations twice", 1, "lid: blif Arity 1\n"),
    (
        "size refused --stations twice",
        1,
        "lid: check Undriven m e\n",
    ),
    ("size net --stations none", 3, "lid: read none\n"),
    ("size net --stations twice", 1, "lid: stations Twice 3\n"),
    ("verify none cut --stations twice", 3, "lid: read none\n"),
    (
        "verify unread cut --stations twice",
        1,
        "lid: blif Arity 1\n",
    ),
    (
        "verify refused cut --stations twice",
        1,
        "lid: check Undriven m e\n",
    ),
    ("verify net cut --stations none", 3, "lid: read none\n"),
    (
        "verify net cut --stations twice",
        1,
        "lid: stations Twice 3\n",
    ),
    ("verify net none", 3, "lid: read none\n"),
    ("verify net cut", 1, "lid: cert Word 1\n"),
    ("verify net cert", 6, "lid: not a certificate\n"),
    ("emit none --stations twice", 3, "lid: read none\n"),
    ("emit unread --stations twice", 1, "lid: blif Arity 1\n"),
    (
        "emit refused --stations twice",
        1,
        "lid: check Undriven m e\n",
    ),
    ("emit net --stations none", 3, "lid: read none\n"),
    ("emit net --stations twice", 1, "lid: stations Twice 3\n"),
    (
        "emit taken --stations twice",
        1,
        "lid: stations NoChannel 2\n",
    ),
    ("emit taken", 1, "lid: emit NameTaken a\n"),
    ("gen 1 --shells 0", 1, "lid: gen Size 0\n"),
    ("gen 1 --shells 2001 --run 5", 1, "lid: gen Size 2001\n"),
    // words that are no job
    (
        "clock net rows --stalls stalls --workers 1",
        2,
        "lid: usage\n",
    ),
    ("clock net rows --workers 65", 2, "lid: usage\n"),
    ("clock net", 2, "lid: usage\n"),
    ("clock net rows --trace 0", 2, "lid: usage\n"),
    ("clock net rows --trace 1048577", 2, "lid: usage\n"),
    ("free net rows --workers 65", 2, "lid: usage\n"),
    ("free net rows --workers 0", 2, "lid: usage\n"),
    ("free net rows --rounds 1000001", 2, "lid: usage\n"),
    ("free net rows --trace 1", 2, "lid: usage\n"),
    ("size", 2, "lid: usage\n"),
    ("slack net stations", 2, "lid: usage\n"),
    ("size net --reach 1", 2, "lid: usage\n"),
    ("slack net --tally", 2, "lid: usage\n"),
    ("emit", 2, "lid: usage\n"),
    ("emit net stations", 2, "lid: usage\n"),
    ("emit net --trace 1", 2, "lid: usage\n"),
];

/// Runs a job that stops, and compares all that is left.
fn expect_stop<R: Threads + AllocGlobal + Sync + Abort>(
    rt: &R,
    line: &str,
    files: &[(&str, &str)],
    status: u8,
    said: &str,
) -> Result<(), AllocError> {
    let words = split_words(rt.alloc(), line)?;
    let ran = run_failing(rt, words.as_slice(), files, NONE_FAILS)?;
    expect_left(rt, &ran, ended(status, said), line);
    Ok(())
}

#[test]
fn what_is_at_fault_is_told_and_nothing_is_written(rt: HostRuntime) -> Result<(), Fail> {
    for (line, status, said) in STOPS {
        expect_stop(&rt, line, FILES, *status, said)?;
    }
    Ok(())
}

/// The commands that find channels, of a netlist with too many channels; no other file is there.
static CROWDED: &[&str] = &[
    "check net",
    "clock net none --stations none --stalls none --trace 524289",
    "walk net none --stations none --schedule none",
    "free net none --stations none",
    "wave net none --stations none --trace 524289",
    "place net --wires none --reach 1",
    "rate net --stations none",
    "slack net --stations none",
    "size net --stations none",
    "verify net none --stations none",
    "emit net --stations none",
];

#[test]
fn too_many_channels_are_told_by_every_command(rt: HostRuntime) -> Result<(), Fail> {
    let net = with_readers(rt.alloc(), "\n.outputs n0")?;
    let files = [("net", net.as_str())];
    for line in CROWDED {
        expect_stop(&rt, line, &files, 1, "lid: net TooManyChannels 16385\n")?;
    }
    Ok(())
}

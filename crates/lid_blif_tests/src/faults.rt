//! Texts that stand for no design: the fault of each, its line and its count.

use lid_base::{TextFault, Which};
use lid_blif::{BlifFault, read};
use std::alloc::{AllocError, Global};

/// What is told of a text: the name of its fault, with the line or the count.
type Told = (&'static str, u64);

const NO_FAULT: Told = ("", 0);

fn told_text(fault: TextFault) -> Told {
    match fault {
        TextFault::BadByte { line } => ("BadByte", u64::from(line)),
        TextFault::NameTooLong { line } => ("NameTooLong", u64::from(line)),
        TextFault::Memory => ("Text Memory", 0),
    }
}

fn told_limit(which: Which, count: u64) -> Told {
    match which {
        Which::Models => ("Limit Models", count),
        Which::CoverRows => ("Limit CoverRows", count),
        Which::FileBytes => ("Limit FileBytes", count),
        _ => ("Limit of another thing", count),
    }
}

fn told(fault: BlifFault) -> Told {
    match fault {
        BlifFault::Text(fault) => told_text(fault),
        BlifFault::NoModel { line } => ("NoModel", u64::from(line)),
        BlifFault::Unsupported { line } => ("Unsupported", u64::from(line)),
        BlifFault::Arity { line } => ("Arity", u64::from(line)),
        BlifFault::RowOutside { line } => ("RowOutside", u64::from(line)),
        BlifFault::RowShape { line } => ("RowShape", u64::from(line)),
        BlifFault::MixedRows { line } => ("MixedRows", u64::from(line)),
        BlifFault::LatchType { line } => ("LatchType", u64::from(line)),
        BlifFault::LatchInit { line } => ("LatchInit", u64::from(line)),
        BlifFault::BindShape { line } => ("BindShape", u64::from(line)),
        BlifFault::DuplicateModel { line } => ("DuplicateModel", u64::from(line)),
        BlifFault::TooManyInputs { line } => ("TooManyInputs", u64::from(line)),
        BlifFault::Limit { which, count } => told_limit(which, count),
        BlifFault::Memory => ("Memory", 0),
    }
}

fn told_of(alloc: Global, text: &[u8]) -> Told {
    match read(alloc, text) {
        Ok(_) => NO_FAULT,
        Err(fault) => told(fault),
    }
}

/// Texts with their first fault.
static FAULTS: [(&str, Told); 32] = [
    ("", ("NoModel", 0)),
    ("# only a comment\n\n", ("NoModel", 0)),
    ("\n.inputs a\n", ("NoModel", 2)),
    (".model m\n.end\n.end\n", ("NoModel", 3)),
    (".model m\n.end\n.gate g\n", ("NoModel", 3)),
    (".model m\n.inputs a\u{1}\n", ("BadByte", 2)),
    (".model m\n.inputs a\\ b\n", ("BadByte", 2)),
    (".model m # \u{1}\n.gate g\n", ("Unsupported", 2)),
    (".model m\n.gate nand2 A=a\n.end", ("Unsupported", 2)),
    (".model\n", ("Arity", 1)),
    (".model m n\n", ("Arity", 1)),
    (".model m\n.names\n", ("Arity", 2)),
    (".model m\n.subckt\n", ("Arity", 2)),
    (".model m\n.latch a\n", ("Arity", 2)),
    (".model m\n.latch a b re c 2 d\n", ("Arity", 2)),
    (".model m\n.inputs a\n1 1\n", ("RowOutside", 3)),
    (
        ".model m\n.names a q\n1 1\n.inputs a\n1 1\n",
        ("RowOutside", 5),
    ),
    (".model m\n.inputs a\n.names a q\n1\n", ("RowShape", 4)),
    (".model m\n.names a q\n2 1\n", ("RowShape", 3)),
    (".model m\n.names a q\n11 1\n", ("RowShape", 3)),
    (".model m\n.names a q\n1 -\n", ("RowShape", 3)),
    (".model m\n.names q\n1 1\n", ("RowShape", 3)),
    (
        ".model m\n.inputs a\n.outputs q\n.names a x\n1 1\n0 0\n.latch x q 0\n.end\n",
        ("MixedRows", 6),
    ),
    (".model m\n.latch a b ah c 2\n", ("LatchType", 2)),
    (".model m\n.latch a b 2 c\n", ("LatchType", 2)),
    (".model m\n.latch a b 4\n", ("LatchInit", 2)),
    (".model m\n.latch a b re c x\n", ("LatchInit", 2)),
    (".model m\n.subckt r d=a q\n", ("BindShape", 2)),
    (".model m\n.subckt r =a\n", ("BindShape", 2)),
    (".model m\n.subckt r d=\n", ("BindShape", 2)),
    (".model m\n.model n\n.model m\n", ("DuplicateModel", 3)),
    (
        ".model m\n.inputs a \\\n b\n.gate\n.latch",
        ("Unsupported", 4),
    ),
];

#[test]
fn faults_are_told(rt: HostRuntime) {
    for (text, fault) in &FAULTS {
        assert_eq!(rt; told_of(rt.alloc(), text.as_bytes()), *fault, "{text}");
    }
}

/// The text `head`, then so many times `part`, then `tail`.
fn repeated(
    alloc: Global,
    head: &str,
    part: &str,
    times: usize,
    tail: &str,
) -> Result<Vec<u8>, AllocError> {
    let mut text = Vec::from_slice(alloc, head.as_bytes())?;
    for _ in 0..times {
        text.extend_from_slice(part.as_bytes())?;
    }
    text.extend_from_slice(tail.as_bytes())?;
    Ok(text)
}

fn told_of_repeated(alloc: Global, head: &str, part: &str, times: usize, tail: &str) -> Told {
    match repeated(alloc, head, part, times, tail) {
        Ok(text) => told_of(alloc, text.as_slice()),
        Err(_) => ("Memory", 0),
    }
}

/// Texts that repeat a part as often as they may, and the fault of one time more.
static LIMITS: [(&str, &str, usize, &str, Told); 4] = [
    (".model m\n.names", " a", 64, " q\n", ("TooManyInputs", 2)),
    (".model ", "m", 1024, "\n", ("NameTooLong", 1)),
    (
        ".model m\n.names a q\n",
        "1 1\n",
        1_048_576,
        "",
        ("Limit CoverRows", 1_048_577),
    ),
    (
        ".model m\n",
        " ",
        16_777_207,
        "",
        ("Limit FileBytes", 16_777_217),
    ),
];

/// A text with so many models.
fn models(alloc: Global, count: u32) -> Result<Vec<u8>, AllocError> {
    let mut text = Vec::new(alloc);
    for number in 0..count {
        let line = format!(in alloc; ".model m{number}\n")?;
        text.extend_from_slice(line.as_bytes())?;
    }
    Ok(text)
}

fn told_of_models(alloc: Global, count: u32) -> Told {
    match models(alloc, count) {
        Ok(text) => told_of(alloc, text.as_slice()),
        Err(_) => ("Memory", 0),
    }
}

#[test]
fn limits_are_told(rt: HostRuntime) {
    for (head, part, times, tail, fault) in &LIMITS {
        let at_limit = told_of_repeated(rt.alloc(), head, part, *times, tail);
        let above = told_of_repeated(rt.alloc(), head, part, times.saturating_add(1), tail);
        assert_eq!(rt; (at_limit, above), (NO_FAULT, *fault), "{head}");
    }
}

#[test]
fn too_many_models_are_told(rt: HostRuntime) {
    let at_limit = told_of_models(rt.alloc(), 4096);
    let above = told_of_models(rt.alloc(), 4097);
    assert_eq!(rt; (at_limit, above), (NO_FAULT, ("Limit Models", 4097)));
}

//! Strict runs of small designs.

use crate::told::design_of;
use lid_check::{Checked, check};
use lid_strict::strict;
use lid_texts::{Rows, print_rows, read_rows};
use std::alloc::{AllocError, Global};
use std::process::Abort;
use std::test::Fail;

/// The rows of a text, for the inputs of a design.
fn rows_of(rt: &impl Abort, alloc: Global, checked: &Checked, text: &str) -> Rows {
    match read_rows(alloc, text.as_bytes(), checked.inputs(), 1) {
        Ok(rows) => rows,
        Err(_) => panic!(rt; "the rows do not read: {text}"),
    }
}

/// Accepts a netlist.
fn accepted(rt: &impl Abort, alloc: Global, net: &str) -> Checked {
    match check(alloc, design_of(rt, alloc, net), None) {
        Ok(checked) => checked,
        Err(_) => panic!(rt; "it is refused: {net}"),
    }
}

/// Accepts a netlist, and runs it.
fn expect(
    rt: &impl Abort,
    alloc: Global,
    net: &str,
    given: &str,
    wanted: &str,
) -> Result<(), AllocError> {
    let checked = accepted(rt, alloc, net);
    let rows = rows_of(rt, alloc, &checked, given);
    expect_rows(rt, alloc, &checked, &rows, wanted)
}

/// The strict outputs for some rows have this text.
fn expect_rows(
    rt: &impl Abort,
    alloc: Global,
    checked: &Checked,
    rows: &Rows,
    wanted: &str,
) -> Result<(), AllocError> {
    let mut text = Vec::new(alloc);
    print_rows(&strict(alloc, checked, rows)?, &mut text)?;
    assert!(rt;
        text.as_slice() == wanted.as_bytes(),
        "other rows than {wanted}"
    );
    Ok(())
}

/// Netlists, their rows and their outputs.
static RUNS: [(&str, &str, &str); 6] = [
    // latches in a row
    (
        ".model t\n.inputs x c\n.outputs v\n.subckt p b=v a=x c=c\n.end\n.model p\n.inputs a c\n\
.outputs b\n.latch m b re c 2\n.latch a m re c 1\n.end\n",
        "x\n1\n0\n1\n1\n",
        "v\n0\n1\n1\n0\n",
    ),
    // two instances with inputs of their own
    (
        ".model t\n.inputs x c y\n.outputs w v\n.subckt p a=x b=v c=c\n.subckt p c=c a=y b=w\n.end\n\
.model p\n.inputs a c\n.outputs b\n.latch a b re c\n.end\n",
        "x y\n10\n01\n11\n",
        "w v\n00\n01\n10\n",
    ),
    // an instance in an instance
    (
        ".model t\n.inputs c x\n.outputs v\n.subckt q d=x e=v k=c\n.end\n.model q\n.inputs k d\n\
.outputs e\n.names d n\n0 1\n.subckt p a=n b=e c=k\n.end\n.model p\n.inputs a c\n.outputs b\n\
.latch a b re c 1\n.end\n",
        "x\n1\n0\n0\n1\n",
        "v\n1\n0\n1\n1\n",
    ),
    // a root alone
    (
        ".model t\n.inputs x c\n.outputs s y\n.names s y\n0 1\n.names x s n\n10 1\n01 1\n\
.latch n s re c 1\n.end\n",
        "x\n1\n1\n0\n1\n",
        "s y\n10\n01\n10\n10\n",
    ),
    // outputs that are inputs
    (
        ".model t\n.inputs x c\n.outputs z x v\n.names x z\n1 1\n.subckt p a=x b=v c=c\n.end\n\
.model p\n.inputs a c\n.outputs b\n.latch a b re c 0\n.end\n",
        "x\n1\n0\n1\n",
        "z x v\n110\n001\n110\n",
    ),
    // nothing goes in or out
    (".model t\n.end\n", "-\n-\n-\n", "-\n-\n-\n"),
];

#[test]
fn runs_of_small_netlists(rt: HostRuntime) -> Result<(), Fail> {
    for run in &RUNS {
        expect(&rt, rt.alloc(), run.0, run.1, run.2)?;
    }
    Ok(())
}

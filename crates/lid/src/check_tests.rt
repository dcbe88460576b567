//! Refusals of acceptance, through the top call. Where two places are at fault, the first is told.

use crate::tests::{done, ended, expect_strict};
use std::alloc::Global;
use std::fmt::Write;
use std::process::Abort;
use std::test::Fail;
use std::thread::Threads;

/// A netlist for each refusal, and its line.
static EACH: &[(&str, &str)] = &[
    (
        ".model m\n.inputs d d\n.outputs q\n.latch d q 0\n",
        "DuplicateName m d",
    ),
    (
        ".model m\n.inputs d\n.outputs q q\n.latch d q 0\n",
        "DuplicateName m q",
    ),
    (
        ".model m\n.inputs d\n.subckt none\n.subckt nil\n",
        "UnknownModel m 0 none",
    ),
    (
        ".model a\n.subckt b\n.end\n.model b\n.subckt a\n.end\n",
        "Recursive a",
    ),
    (
        ".model m\n.subckt r\n.subckt r x=a\n.model r\n.outputs q\n.latch q q\n",
        "UnknownFormal m 1 x",
    ),
    (
        ".model m\n.outputs q\n.subckt r q=q q=p\n.model r\n.outputs q\n.latch q q\n",
        "FormalTwice m 0 q",
    ),
    (
        ".model m\n.subckt r\n.model r\n.inputs d e\n",
        "Unbound m 0 d",
    ),
    (
        ".model m\n.inputs d\n.outputs q\n.latch d q 0\n.latch d q 0\n",
        "TwoDrivers m q",
    ),
    (
        ".model m\n.inputs d\n.outputs q\n.latch e q 0\n",
        "Undriven m e",
    ),
    (
        ".model m\n.inputs c\n.outputs q\n.latch c q re c 0\n",
        "ClockUse m c",
    ),
    (
        ".model m\n.inputs d\n.clock c e\n.outputs q\n.latch d q\n",
        "TwoClocks c e",
    ),
    (
        ".model m\n.inputs c a\n.outputs p q\n.latch a p re c 0\n.latch a q fe c 0\n.end\n",
        "MixedEdges m q",
    ),
    (
        ".model m\n.inputs d\n.outputs q\n.latch d q\n.subckt n\n.model n\n",
        "RootLogic q",
    ),
    (
        ".model m\n.outputs q\n.names q p\n1 1\n.names p q\n1 1\n",
        "CombLoop - q",
    ),
    (
        ".model m\n.inputs d\n.outputs d\n.latch d q 0\n",
        "OutputFromInput m d d",
    ),
    (
        ".model t\n.inputs x\n.outputs y\n.subckt p a=x b=y\n.end\n.model p\n.inputs a\n.outputs b\n.names a b\n1 1\n.end\n",
        "OutputFromInput p b a",
    ),
];

#[test]
fn each_refusal_has_its_line(rt: HostRuntime) -> Result<(), Fail> {
    expect_faults(&rt, EACH)
}

/// Netlists in which two places are at fault.
static FIRST: &[(&str, &str)] = &[
    // the model that comes first in the text, and in it the name that first occurs first
    (
        ".model m\n.subckt r\n.end\n.model r\n.inputs a b\n.outputs b a\n",
        "DuplicateName r a",
    ),
    (
        ".model m\n.inputs a b b a\n.subckt r\n.end\n.model r\n.clock c c\n",
        "DuplicateName m a",
    ),
    (
        ".model m\n.subckt r\n.subckt n1\n.end\n.model r\n.subckt n2\n",
        "UnknownModel m 1 n1",
    ),
    (
        ".model m\n.subckt b\n.subckt a\n.end\n.model a\n.subckt a\n.end\n.model b\n.subckt b\n",
        "Recursive a",
    ),
    (
        ".model m\n.subckt r y=a x=a\n.subckt r w=a\n.model r\n",
        "UnknownFormal m 0 y",
    ),
    (
        ".model m\n.inputs a\n.subckt r e=a d=a d=a e=a\n.model r\n.inputs d e\n",
        "FormalTwice m 0 e",
    ),
    (
        ".model m\n.inputs a\n.subckt r e=a\n.subckt r\n.model r\n.inputs e d c\n",
        "Unbound m 0 d",
    ),
    (
        ".model m\n.inputs a b\n.latch a b\n.names a\n",
        "TwoDrivers m a",
    ),
    (".model m\n.outputs q p\n.names x q\n1 1\n", "Undriven m p"),
    (
        ".model m\n.outputs p q\n.latch q q re c\n.latch p p re e\n",
        "ClockUse m c",
    ),
    (
        ".model m\n.inputs b a\n.clock e\n.latch q q re e\n.latch p p re a\n",
        "TwoClocks a e",
    ),
    (
        ".model m\n.clock c\n.latch p p re c\n.latch q q fe c\n.latch r r fe c\n",
        "MixedEdges m q",
    ),
    (
        ".model m\n.inputs x y\n.names x y p\n11 1\n.latch x q\n.subckt n\n.model n\n",
        "RootLogic p",
    ),
    (
        ".model m\n.names b a\n1 1\n.names a b\n1 1\n.names d c\n1 1\n.names c d\n1 1\n",
        "CombLoop - b",
    ),
    (
        ".model m\n.inputs a b\n.outputs q p\n.names b a p\n11 1\n.names q\n",
        "OutputFromInput m p a",
    ),
];

#[test]
fn the_first_place_at_fault_is_told(rt: HostRuntime) -> Result<(), Fail> {
    expect_faults(&rt, FIRST)
}

/// Netlists at which two conditions apply.
static EARLIER: &[(&str, &str)] = &[
    (
        ".model m\n.subckt none\n.subckt r\n.end\n.model r\n.inputs a a\n",
        "DuplicateName r a",
    ),
    (
        ".model m\n.subckt m\n.subckt none\n",
        "UnknownModel m 1 none",
    ),
    (".model m\n.subckt m x=a\n", "Recursive m"),
    (
        ".model m\n.inputs a\n.subckt r d=a d=a\n.subckt r x=a\n.model r\n.inputs d\n",
        "UnknownFormal m 1 x",
    ),
    (
        ".model m\n.inputs a\n.subckt r\n.subckt r d=a d=a\n.model r\n.inputs d\n",
        "FormalTwice m 1 d",
    ),
    (
        ".model m\n.inputs a\n.latch a a\n.subckt r\n.model r\n.inputs d\n",
        "Unbound m 0 d",
    ),
    (
        ".model m\n.outputs z\n.names q\n.names q\n",
        "TwoDrivers m q",
    ),
    (
        ".model m\n.inputs c\n.outputs z\n.latch c q re c\n",
        "Undriven m z",
    ),
    (".model m\n.clock c e\n.latch c q re e\n", "ClockUse m c"),
    (
        ".model m\n.clock c e\n.latch p p re c\n.latch q q fe c\n",
        "TwoClocks c e",
    ),
    (
        ".model m\n.clock c\n.latch p p re c\n.latch q q fe c\n.subckt n\n.model n\n",
        "MixedEdges m q",
    ),
    (
        ".model m\n.names b a\n1 1\n.names a b\n0 1\n.subckt n\n.model n\n",
        "RootLogic b",
    ),
    (
        ".model m\n.inputs a\n.outputs a\n.names q p\n1 1\n.names p q\n1 1\n",
        "CombLoop - q",
    ),
];

#[test]
fn an_earlier_condition_is_told_before_a_later_one(rt: HostRuntime) -> Result<(), Fail> {
    expect_faults(&rt, EARLIER)
}

/// Appends a text so many times.
fn push_times(net: &mut String, text: &str, count: u32) -> Result<(), Fail> {
    for _ in 0..count {
        net.push_str(text)?;
    }
    Ok(())
}

/// Appends the numbers from 0 on, so many, each between two texts.
fn push_numbered(net: &mut String, before: &str, count: u32, after: &str) -> Result<(), Fail> {
    for k in 0..count {
        write!(net, "{before}{k}{after}")?;
    }
    Ok(())
}

/// A root with so many instances.
fn with_instances(alloc: Global, count: u32) -> Result<String, Fail> {
    let mut net = String::from_str(alloc, ".model m\n")?;
    push_times(&mut net, ".subckt n\n", count)?;
    net.push_str(".model n\n")?;
    Ok(net)
}

/// A chain of so many instances.
fn with_depth(alloc: Global, depth: u32) -> Result<String, Fail> {
    let mut net = String::new(alloc);
    for k in 0..depth {
        write!(net, ".model m{k}\n.subckt m{}\n", k + 1)?;
    }
    write!(net, ".model m{depth}\n")?;
    Ok(net)
}

/// 512 instances of a model with some cells, and one of a model with others: 513 of the cells are the
/// instances.
fn with_cells(alloc: Global, each: u32, others: u32) -> Result<String, Fail> {
    let mut net = String::from_str(alloc, ".model m\n")?;
    push_times(&mut net, ".subckt n\n", 512)?;
    net.push_str(".subckt o\n.model n\n")?;
    push_numbered(&mut net, ".names q", each, "\n")?;
    net.push_str(".model o\n")?;
    push_numbered(&mut net, ".names q", others, "\n")?;
    Ok(net)
}

/// 1,024 instances of a model whose one net is bound to so many inputs of an instance in it, and so many
/// inputs of the root.
fn with_columns(alloc: Global, each: u32, inputs: u32) -> Result<String, Fail> {
    let mut net = String::from_str(alloc, ".model m\n.inputs")?;
    push_numbered(&mut net, " x", inputs, "")?;
    push_times(&mut net, "\n.subckt n", 1_024)?;
    net.push_str("\n.model n\n.names y\n.subckt o")?;
    push_numbered(&mut net, " i", each, "=y")?;
    net.push_str("\n.model o\n.inputs")?;
    push_numbered(&mut net, " i", each, "")?;
    net.push_str("\n")?;
    Ok(net)
}

/// A netlist is accepted at a limit, and refused past it.
fn expect_limit<R: Threads + AllocGlobal + Sync + Abort>(
    rt: &R,
    at: &str,
    past: &str,
    fault: &str,
) -> Result<(), Fail> {
    expect_no_rows(rt, at)?;
    expect_fault(rt, past, fault)
}

#[test]
fn limits_are_reached_and_not_exceeded(rt: HostRuntime) -> Result<(), Fail> {
    let alloc = rt.alloc();
    let at = with_instances(alloc, 4_096)?;
    let past = with_instances(alloc, 4_097)?;
    expect_limit(&rt, at.as_str(), past.as_str(), "Limit RootInsts 4097")
}

#[test]
fn depth_is_reached_and_not_exceeded(rt: HostRuntime) -> Result<(), Fail> {
    let alloc = rt.alloc();
    let at = with_depth(alloc, 64)?;
    let past = with_depth(alloc, 65)?;
    expect_limit(&rt, at.as_str(), past.as_str(), "Limit Depth 65")
}

#[test]
fn cells_are_counted_over_all_paths(rt: HostRuntime) -> Result<(), Fail> {
    let alloc = rt.alloc();
    let at = with_cells(alloc, 510, 511)?;
    let past = with_cells(alloc, 510, 512)?;
    expect_limit(&rt, at.as_str(), past.as_str(), "Limit Cells 262145")
}

#[test]
fn columns_are_counted_over_all_paths(rt: HostRuntime) -> Result<(), Fail> {
    let alloc = rt.alloc();
    let at = with_columns(alloc, 1_023, 0)?;
    let past = with_columns(alloc, 1_023, 1)?;
    expect_limit(&rt, at.as_str(), past.as_str(), "Limit Nets 1048577")
}

#[test]
fn a_loop_is_told_at_its_first_column(rt: HostRuntime) -> Result<(), Fail> {
    let net = ".model t\n.outputs y\n.subckt a q=y\n.subckt a\n.end\n\
.model a\n.outputs q\n.latch x q\n.subckt b\n.names x\n.end\n\
.model b\n.names v u\n1 1\n.names u v\n1 1\n.end\n";
    expect_fault(&rt, net, "CombLoop 0/0 v")?;
    Ok(())
}

/// Appends a model with four instances of the next.
fn push_four(net: &mut String, model: u32, next: u32) -> Result<(), Fail> {
    write!(net, ".model m{model}\n")?;
    for _ in 0..4 {
        write!(net, ".subckt m{next}\n")?;
    }
    net.push_str(".end\n")?;
    Ok(())
}

/// Thirteen models, each with four instances of the next, and a latch in the last.
fn immense(alloc: Global) -> Result<String, Fail> {
    let mut net = String::new(alloc);
    for next in 1..14 {
        push_four(&mut net, next - 1, next)?;
    }
    net.push_str(".model m13\n.latch q q 0\n.end\n")?;
    Ok(net)
}

#[test]
fn an_immense_design_is_refused_at_once(rt: HostRuntime) -> Result<(), Fail> {
    let net = immense(rt.alloc())?;
    expect_fault(&rt, net.as_str(), "Limit Cells 156587348")
}

/// Runs a netlist without inputs and outputs, over no rows.
fn expect_no_rows<R: Threads + AllocGlobal + Sync + Abort>(rt: &R, net: &str) -> Result<(), Fail> {
    let left = done("-\n");
    expect_strict(rt, net, "-\n", left)?;
    Ok(())
}

/// Runs netlists that are refused.
fn expect_faults<R: Threads + AllocGlobal + Sync + Abort>(
    rt: &R,
    cases: &[(&str, &str)],
) -> Result<(), Fail> {
    for (net, fault) in cases {
        expect_fault(rt, net, fault)?;
    }
    Ok(())
}

/// Runs a netlist that is refused.
fn expect_fault<R: Threads + AllocGlobal + Sync + Abort>(
    rt: &R,
    net: &str,
    fault: &str,
) -> Result<(), Fail> {
    let line = format!(in rt.alloc(); "lid: check {fault}\n")?;
    let left = ended(1, line.as_str());
    expect_strict(rt, net, "d\n", left)?;
    Ok(())
}

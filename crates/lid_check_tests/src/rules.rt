//! Models that are accepted and refused.

ghost use Rattle.lid_design.specs.Models.{IsReached};
ghost use Rattle.lid_design.specs.WellFormed.{IsWellFormed};
ghost use Rattle.lid_check_rules.specs.Acceptance.{ModelsPass};

use crate::told::{Told, design_of, tells};
use lid_check_hierarchy::Survey;
use lid_check_models::{check_models, count_latches};
use lid_design::Design;
use std::alloc::{AllocError, Global};
use std::fmt::Write;
use std::process::Abort;
use std::test::Fail;

/// A register `p` with input a, output b and clock c.
const REGISTER: &str = ".end\n.model p\n.inputs a c\n.outputs b\n.latch a b re c 1\n.end\n";

/// A netlist, and what is told: the word of the fault, its two names, and its number.
type Case = (&'static str, &'static str, &'static str, &'static str, u64);

/// A netlist with a register `p` is refused, and this is told.
fn expect(rt: &impl Abort, alloc: Global, case: &Case) -> Result<(), AllocError> {
    let mut text = String::from_str(alloc, case.0)?;
    text.push_str(REGISTER)?;
    let wanted: Told<'_> = (case.1, case.2.as_bytes(), case.3.as_bytes(), &[], case.4);
    expect_whole(rt, alloc, text.as_str(), wanted);
    Ok(())
}

/// Whether a design is refused, and this is told.
fn is_told(alloc: Global, design: &Design, wanted: Told<'_>) -> bool
    requires { IsWellFormed design.now }
{
    match check_models(alloc, design) {
        Ok(_) => false,
        Err(fault) => tells(&fault, wanted),
    }
}

/// A netlist is refused, and this is told.
fn expect_whole(rt: &impl Abort, alloc: Global, net: &str, wanted: Told<'_>) {
    let design = design_of(rt, alloc, net);
    let told = is_told(alloc, &design, wanted);
    assert!(rt; told, "it is accepted, or something else is told: {net}");
}

/// Whether a design is accepted.
fn passes(alloc: Global, design: &Design) -> bool
    requires { IsWellFormed design.now }
{
    check_models(alloc, design).is_ok()
}

/// A netlist is accepted.
fn expect_none(rt: &impl Abort, alloc: Global, net: &str) {
    let design = design_of(rt, alloc, net);
    let passed = passes(alloc, &design);
    assert!(rt; passed, "it is refused: {net}");
}

/// Whether these are the nets of a model of a pair of registers: of the root, or of the register.
fn is_model(survey: &Survey<'_>, k: u32) -> bool
    requires { IsReached survey.now k }
{
    let (nets, first, place): (usize, &[u8], Option<usize>) = if k == 0 {
        (4, b"x", Some(3))
    } else {
        (2, b"a", None)
    };
    survey.is_clock(k, b"c")
        && !survey.is_clock(k, b"a")
        && survey.place_of(k, b"c").is_none()
        && survey.count_nets(k) == nets
        && survey.net_at(k, 0) == Some(first)
        && survey.place_of(k, b"u") == place
}

/// Whether these are the models of a pair of registers.
fn are_models(survey: &Survey<'_>) -> bool {
    let reached = survey.reached();
    for k in reached {
        if !is_model(survey, *k) {
            return false;
        }
    }
    reached == [0, 1].as_slice()
        && survey.order() == [1, 0].as_slice()
        && survey.model_of(0, 1) == Some(1)
        && survey.model_of(0, 2).is_none()
}

/// Whether a design is that of a pair of registers.
fn is_pair(alloc: Global, survey: &Survey<'_>) -> Result<bool, AllocError>
    requires { ModelsPass survey.now }
{
    let latches = count_latches(alloc, survey)?;
    Ok(are_models(survey) && latches.all == 2 && latches.defaulted == 0)
}

/// Whether a design is accepted, and is that of a pair of registers.
fn is_accepted_pair(alloc: Global, design: &Design) -> Result<bool, AllocError>
    requires { IsWellFormed design.now }
{
    match check_models(alloc, design) {
        Ok(survey) => is_pair(alloc, &survey),
        Err(_) => Ok(false),
    }
}

#[test]
fn a_pair_of_registers_is_accepted(rt: HostRuntime) -> Result<(), Fail> {
    let net = ".model t\n.inputs x d c\n.outputs v\n.subckt p a=x b=u c=c\n.subckt p a=u b=v c=c\n\
.end\n.model p\n.inputs a c\n.outputs b\n.latch a b re c 1\n.end\n";
    let design = design_of(&rt, rt.alloc(), net);
    let accepted = is_accepted_pair(rt.alloc(), &design)?;
    assert!(rt; accepted);
    Ok(())
}

/// Netlists that meet the conditions.
static PASSING: [&str; 3] = [
    // wires of a root with an instance; an output that is an input
    ".model t\n.inputs x d c\n.outputs u w z x\n.names w\n1\n.names x z\n1 1\n.subckt p a=x b=u c=c\n\
.end\n.model p\n.inputs a c\n.outputs b\n.latch a b re c 1\n.end\n",
    // logic of a root without instances; a latch without a type beside one with a type
    ".model t\n.inputs x d c\n.outputs w x\n.names x y\n0 1\n.latch y z\n.latch z w fe c 1\n.end\n",
    // a clock that is an input, an input that is an output, and a model that is not reached
    ".model t\n.inputs x c\n.outputs x\n.clock c\n.end\n.model q\n.inputs a\n.outputs a\n.end\n",
];

#[test]
fn accepted_models(rt: HostRuntime) {
    for net in &PASSING {
        expect_none(&rt, rt.alloc(), net);
    }
}

/// Netlists with faulty lists and instances.
static LISTS: [Case; 7] = [
    (
        ".model t\n.inputs x d c\n.outputs d x x\n.subckt q\n",
        "DuplicateName",
        "t",
        "x",
        0,
    ),
    (
        ".model t\n.inputs x\n.subckt q a=x\n.end\n.model q\n.inputs a\n.outputs a\n",
        "DuplicateName",
        "q",
        "a",
        0,
    ),
    (
        ".model t\n.inputs x d c\n.subckt p a=x b=u c=c\n.subckt q a=x b=u c=c\n.subckt r a=x b=u c=c\n",
        "UnknownModel",
        "t",
        "q",
        1,
    ),
    (
        ".model t\n.subckt q\n.end\n.model q\n.subckt r\n.end\n.model r\n.subckt q\n",
        "Recursive",
        "q",
        "",
        0,
    ),
    (
        ".model t\n.inputs x d c\n.subckt p a=x b=u c=c\n.subckt p a=x a=x z=x\n",
        "UnknownFormal",
        "t",
        "z",
        1,
    ),
    (
        ".model t\n.inputs x d c\n.subckt p b=u a=x a=d\n",
        "FormalTwice",
        "t",
        "a",
        0,
    ),
    (
        ".model t\n.inputs x d c\n.subckt p a=x\n.subckt p b=u\n",
        "Unbound",
        "t",
        "a",
        1,
    ),
];

/// Netlists with faulty nets, clocks and cells.
static NETS: [Case; 9] = [
    (
        ".model t\n.inputs x d c\n.outputs u\n.names x u\n1 1\n.subckt p a=x b=u c=c\n",
        "TwoDrivers",
        "t",
        "u",
        0,
    ),
    (
        ".model t\n.inputs x d c\n.outputs w\n.latch d x re c 1\n",
        "TwoDrivers",
        "t",
        "x",
        0,
    ),
    (
        ".model t\n.inputs x d c\n.outputs v\n.subckt p a=u b=v c=c\n",
        "Undriven",
        "t",
        "u",
        0,
    ),
    (
        ".model t\n.inputs x d c\n.outputs x w\n",
        "Undriven",
        "t",
        "w",
        0,
    ),
    (
        ".model t\n.inputs x d c\n.outputs u\n.names c y\n1 1\n.subckt p a=x b=u c=c\n",
        "ClockUse",
        "t",
        "c",
        0,
    ),
    (
        ".model t\n.inputs x d c\n.outputs y\n.latch x y re k 1\n",
        "ClockUse",
        "t",
        "k",
        0,
    ),
    (
        ".model t\n.inputs x d c\n.outputs u\n.subckt p a=x b=u c=c\n.subckt p a=x c=d\n",
        "TwoClocks",
        "d",
        "c",
        0,
    ),
    (
        ".model t\n.inputs x d c\n.outputs y\n.latch x w\n.latch x y re c 1\n.latch y z fe c 1\n",
        "MixedEdges",
        "t",
        "z",
        0,
    ),
    (
        ".model t\n.inputs x d c\n.outputs y\n.names x z\n1 1\n.names x y\n0 1\n.latch x w\n\
.subckt p a=x b=u c=c\n",
        "RootLogic",
        "y",
        "",
        0,
    ),
];

#[test]
fn faulty_models_are_told(rt: HostRuntime) -> Result<(), Fail> {
    for case in &LISTS {
        expect(&rt, rt.alloc(), case)?;
    }
    for case in &NETS {
        expect(&rt, rt.alloc(), case)?;
    }
    Ok(())
}

/// Appends the first of the nine names, so many, each behind a blank and, where it is bound, before `=`
/// and itself once more.
fn push_names(net: &mut String, inputs: usize, is_bound: bool) -> Result<(), Fail> {
    for name in NINE.iter().take(inputs) {
        write!(net, " {name}")?;
        if is_bound {
            write!(net, "={name}")?;
        }
    }
    Ok(())
}

/// Appends so many instances of a model, whose inputs are bound to the nets of the same names.
fn push_copies(net: &mut String, model: u32, copies: u32, inputs: usize) -> Result<(), Fail> {
    for _ in 0..copies {
        write!(net, ".subckt m{model}")?;
        push_names(net, inputs, true)?;
        net.push_str("\n")?;
    }
    Ok(())
}

/// Appends a model with so many inputs.
fn push_head(net: &mut String, model: u32, inputs: usize) -> Result<(), Fail> {
    write!(net, ".model m{model}\n.inputs")?;
    push_names(net, inputs, false)?;
    net.push_str("\n")?;
    Ok(())
}

/// So many models, each of which has so many instances of the next and binds its inputs to theirs.
fn chain(alloc: Global, levels: u32, copies: u32, inputs: usize) -> Result<String, Fail> {
    let mut net = String::new(alloc);
    for k in 1..levels {
        push_head(&mut net, k - 1, inputs)?;
        push_copies(&mut net, k, copies, inputs)?;
    }
    push_head(&mut net, levels.saturating_sub(1), inputs)?;
    Ok(net)
}

/// The inputs of the models of a chain, of which it takes the first ones.
static NINE: [&str; 9] = ["a", "b", "c", "d", "e", "f", "g", "h", "i"];

/// Chains at a limit: levels, instances of each, and inputs.
static AT: [(u32, u32, usize); 4] = [(2, 4096, 0), (65, 1, 0), (18, 2, 0), (17, 2, 8)];

/// Chains past a limit, with the limit and the count that are told.
static PAST: [(u32, u32, usize, &str, u64); 4] = [
    (2, 4097, 0, "RootInsts", 4097),
    (66, 1, 0, "Depth", 65),
    (19, 2, 0, "Cells", 524_286),
    (17, 2, 9, "Nets", 1_179_639),
];

/// A chain of so many levels, instances and inputs is accepted.
fn expect_at(rt: &impl Abort, alloc: Global, at: (u32, u32, usize)) -> Result<(), Fail> {
    let net = chain(alloc, at.0, at.1, at.2)?;
    expect_none(rt, alloc, net.as_str());
    Ok(())
}

/// A chain of so many levels, instances and inputs is refused, and this limit and this count are told.
fn expect_past(
    rt: &impl Abort,
    alloc: Global,
    past: (u32, u32, usize, &str, u64),
) -> Result<(), Fail> {
    let net = chain(alloc, past.0, past.1, past.2)?;
    let wanted: Told<'_> = ("Limit", past.3.as_bytes(), &[], &[], past.4);
    expect_whole(rt, alloc, net.as_str(), wanted);
    Ok(())
}

#[test]
fn limits_are_told_past_their_last_count(rt: HostRuntime) -> Result<(), Fail> {
    for at in &AT {
        expect_at(&rt, rt.alloc(), *at)?;
    }
    for past in &PAST {
        expect_past(&rt, rt.alloc(), *past)?;
    }
    Ok(())
}

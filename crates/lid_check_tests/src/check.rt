//! Netlists that are accepted and refused, with their roots.

ghost use Rattle.lid_design.specs.WellFormed.{IsWellFormed};

use crate::told::{Told, design_of, tells};
use lid_base::{Name, copy_name};
use lid_check::{Checked, check};
use lid_design::Design;
use std::alloc::{AllocError, Global};
use std::process::Abort;
use std::test::Fail;

/// Two instances of a model `p` without a state, each of which drives the other's input.
const RING: &str =
    ".model t\n.inputs x c\n.outputs v\n.subckt p a=v b=u c=c\n.subckt p a=u b=v c=c\n\
.end\n.model p\n.inputs a c\n.outputs b\n.names a b\n1 1\n.end\n";

/// Two instances of a model `p` without a state, one behind the other.
const CHAIN: &str =
    ".model t\n.inputs x c\n.outputs v\n.subckt p a=x b=u c=c\n.subckt p a=u b=v c=c\n\
.end\n.model p\n.inputs a c\n.outputs b\n.names a b\n1 1\n.end\n";

/// Two instances of a register `p` whose first bit is left open, one behind the other.
const OPEN: &str =
    ".model t\n.inputs x c\n.outputs v\n.subckt p a=x b=u c=c\n.subckt p a=u b=v c=c\n\
.end\n.model p\n.inputs a c\n.outputs b\n.latch a b re c\n.end\n";

/// The same with registers that begin at 1.
const SET: &str =
    ".model t\n.inputs x c\n.outputs v\n.subckt p a=x b=u c=c\n.subckt p a=u b=v c=c\n\
.end\n.model p\n.inputs a c\n.outputs b\n.latch a b re c 1\n.end\n";

fn name(alloc: Global, text: &str) -> Result<Name, AllocError> {
    copy_name(alloc, text.as_bytes())
}

fn is(found: &[Name], text: &str) -> bool {
    found.len() == 1 && found[0].as_slice() == text.as_bytes()
}

/// Whether a design is refused with the root of this name, or with its own, and this is told.
fn is_told(alloc: Global, design: Design, root: Option<&Name>, wanted: Told<'_>) -> bool
    requires { IsWellFormed design }
{
    match check(alloc, design, root) {
        Ok(_) => false,
        Err(fault) => tells(&fault, wanted),
    }
}

/// A netlist is refused with the root of this name, or with its own, and this is told.
fn expect_fault(rt: &impl Abort, alloc: Global, net: &str, root: Option<&Name>, wanted: Told<'_>) {
    let told = is_told(alloc, design_of(rt, alloc, net), root, wanted);
    assert!(rt; told, "it is accepted, or something else is told: {net}");
}

/// A netlist is accepted with the root of this name, or with its own.
fn accepted(rt: &impl Abort, alloc: Global, net: &str, root: Option<&Name>) -> Checked {
    match check(alloc, design_of(rt, alloc, net), root) {
        Ok(checked) => checked,
        Err(_) => panic!(rt; "it is refused: {net}"),
    }
}

#[test]
fn loops_and_dependences_are_told(rt: HostRuntime) -> Result<(), Fail> {
    let alloc = rt.alloc();
    // (a walk may have no edge)
    let through = ".model t\n.inputs x\n.outputs x\n.end\n";
    expect_fault(&rt, alloc, RING, None, ("CombLoop", b"v", &[], &[], 0));
    expect_fault(
        &rt,
        alloc,
        CHAIN,
        None,
        ("OutputFromInput", b"p", b"b", b"a", 0),
    );
    expect_fault(
        &rt,
        alloc,
        through,
        None,
        ("OutputFromInput", b"t", b"x", b"x", 0),
    );
    let chosen = name(alloc, "q")?;
    expect_fault(&rt, alloc, SET, Some(&chosen), ("NoRoot", &[], &[], &[], 0));
    Ok(())
}

/// Whether a checked design has this root, and so many pearls, latches and latches left open.
fn has_counts(checked: &Checked, root: u32, pearls: u32, latches: u64, defaulted: u64) -> bool {
    checked.root() == root
        && checked.pearls() == pearls
        && checked.latches() == latches
        && checked.defaulted() == defaulted
}

#[test]
fn a_pair_of_registers_is_accepted(rt: HostRuntime) {
    let checked = accepted(&rt, rt.alloc(), OPEN, None);
    let has = has_counts(&checked, 0, 2, 2, 2)
        && is(checked.inputs(), "x")
        && is(checked.outputs(), "v");
    assert!(rt; has);
}

#[test]
fn a_chosen_root_is_one_pearl(rt: HostRuntime) -> Result<(), Fail> {
    let chosen = name(rt.alloc(), "p")?;
    let checked = accepted(&rt, rt.alloc(), SET, Some(&chosen));
    assert!(rt; has_counts(&checked, 1, 1, 1, 0));
    Ok(())
}

//! What a netlist is read as, and what is told of a design that is not accepted.

ghost use Rattle.std.specs.Prelude.{IfOk};
ghost use Rattle.lid_design.specs.WellFormed.{IsWellFormed};

use lid_base::Which;
use lid_blif::read;
use lid_check::CheckFault;
use lid_design::Design;
use std::alloc::Global;
use std::process::Abort;

/// What is told: the word of the fault, its names in order, and its number: of an instance, a count, or
/// how many instances stand around a column.
pub type Told<'a> = (&'a str, &'a [u8], &'a [u8], &'a [u8], u64);

/// The design of a text.
pub fn design_of(rt: &impl Abort, alloc: Global, net: &str) -> Design
    ensures { IsWellFormed result }
{
    match read(alloc, net.as_bytes()) {
        Ok(design) => design,
        Err(_) => panic!(rt; "it does not read: {net}"),
    }
}

/// The word of a limit on a design.
fn limit_word(which: Which) -> &'static [u8] {
    match which {
        Which::RootInsts => b"RootInsts",
        Which::Depth => b"Depth",
        Which::Cells => b"Cells",
        Which::Nets => b"Nets",
        _ => b"another",
    }
}

/// What a fault tells of one model: its word, and the model and the name.
fn shown(fault: &CheckFault) -> (&str, &[u8], &[u8], u64) {
    match fault {
        CheckFault::NoRoot => ("NoRoot", &[], &[], 0),
        CheckFault::DuplicateName { model, name } => {
            ("DuplicateName", model.as_slice(), name.as_slice(), 0)
        }
        CheckFault::UnknownModel { model, inst, name } => (
            "UnknownModel",
            model.as_slice(),
            name.as_slice(),
            u64::from(*inst),
        ),
        CheckFault::Recursive { model } => ("Recursive", model.as_slice(), &[], 0),
        CheckFault::UnknownFormal {
            model,
            inst,
            formal,
        } => (
            "UnknownFormal",
            model.as_slice(),
            formal.as_slice(),
            u64::from(*inst),
        ),
        CheckFault::FormalTwice {
            model,
            inst,
            formal,
        } => (
            "FormalTwice",
            model.as_slice(),
            formal.as_slice(),
            u64::from(*inst),
        ),
        CheckFault::Unbound {
            model,
            inst,
            formal,
        } => (
            "Unbound",
            model.as_slice(),
            formal.as_slice(),
            u64::from(*inst),
        ),
        CheckFault::TwoDrivers { model, name } => {
            ("TwoDrivers", model.as_slice(), name.as_slice(), 0)
        }
        CheckFault::Undriven { model, name } => {
            ("Undriven", model.as_slice(), name.as_slice(), 0)
        }
        CheckFault::ClockUse { model, name } => {
            ("ClockUse", model.as_slice(), name.as_slice(), 0)
        }
        CheckFault::TwoClocks { first, second } => {
            ("TwoClocks", first.as_slice(), second.as_slice(), 0)
        }
        CheckFault::MixedEdges { model, name } => {
            ("MixedEdges", model.as_slice(), name.as_slice(), 0)
        }
        CheckFault::RootLogic { name } => ("RootLogic", name.as_slice(), &[], 0),
        CheckFault::Limit { which, count } => ("Limit", limit_word(*which), &[], *count),
        CheckFault::CombLoop { path, name } => {
            ("CombLoop", name.as_slice(), &[], path.len() as u64)
        }
        CheckFault::OutputFromInput { model, output, .. } => {
            ("OutputFromInput", model.as_slice(), output.as_slice(), 0)
        }
        CheckFault::Memory => ("Memory", &[], &[], 0),
    }
}

/// The third name that a fault tells, where it has three.
fn third(fault: &CheckFault) -> &[u8] {
    match fault {
        CheckFault::OutputFromInput { input, .. } => input.as_slice(),
        _ => &[],
    }
}

/// Whether a fault tells this.
pub fn tells(fault: &CheckFault, wanted: Told<'_>) -> bool {
    let found = shown(fault);
    found.0 == wanted.0
        && found.1 == wanted.1
        && found.2 == wanted.2
        && third(fault) == wanted.3
        && found.3 == wanted.4
}

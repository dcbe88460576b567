//! What drives the columns of a design, by their numbers.

ghost use Rattle.lid_design.specs.WellFormed.{IsWellFormed};

use crate::told::design_of;
use lid_check_drivers::{Judged, judge};
use lid_check_elab::{ColumnDriver, Elaboration, elaborate};
use lid_check_hierarchy::is_well_formed;
use lid_check_models::check_models;
use lid_design::Design;
use std::alloc::{AllocError, Global};
use std::process::Abort;
use std::test::Fail;

/// Two instances of a register, one behind the other.
const TWO: &str = ".model top\n.inputs ck x\n.outputs z\n.subckt reg a=x b=y clk=ck\n\
.subckt reg a=y b=z clk=ck\n.end\n.model reg\n.inputs a clk\n.outputs b\n.latch a b re clk 1\n.end\n";

/// The last model has an instance of `mid`, which has logic and an instance of a register.
const NESTED: &str =
    ".model reg\n.inputs a clk\n.outputs b\n.latch a b re clk 2\n.end\n.model mid\n\
.inputs d c\n.outputs q\n.names w d q\n11 1\n.subckt reg a=d b=w clk=c\n.end\n.model top\n.inputs x ck\n\
.outputs o\n.subckt mid d=x q=o c=ck\n.end\n";

/// A driver in words and numbers.
fn shown(alloc: Global, driver: &ColumnDriver) -> Result<String, AllocError> {
    match driver {
        ColumnDriver::Input(place) => format!(in alloc; "input {place}"),
        ColumnDriver::Latch { first, input } => format!(in alloc; "latch {first} {input}"),
        ColumnDriver::Cover { inputs, .. } => shown_cover(alloc, inputs.as_slice()),
        ColumnDriver::Connection(other) => format!(in alloc; "connection {other}"),
    }
}

/// A cover, by the columns that it reads.
fn shown_cover(alloc: Global, inputs: &[u32]) -> Result<String, AllocError> {
    let mut text = String::from_str(alloc, "cover")?;
    for input in inputs {
        text.push_str(format!(in alloc; " {input}")?.as_str())?;
    }
    Ok(text)
}

/// The drivers and the starts of an elaboration, one a line.
fn lines(alloc: Global, elaboration: &Elaboration<'_>) -> Result<String, AllocError> {
    let mut text = String::new(alloc);
    for driver in elaboration.drivers() {
        text.push_str(shown(alloc, driver)?.as_str())?;
        text.push('\n')?;
    }
    for start in elaboration.starts() {
        text.push_str(format!(in alloc; "start {start}\n")?.as_str())?;
    }
    Ok(text)
}

/// Whether the columns of a design that meets the conditions on models have these lines.
fn has_lines(alloc: Global, judged: Judged<'_>, wanted: &str) -> Result<bool, AllocError> {
    let elaboration = elaborate(alloc, judged)?;
    let text = lines(alloc, &elaboration)?;
    Ok(text.as_str() == wanted)
}

/// Whether a design is accepted by its models, and its columns have these lines.
fn is_elaborated(alloc: Global, design: &Design, wanted: &str) -> Result<bool, AllocError>
    requires { IsWellFormed design.now }
{
    match check_models(alloc, design) {
        Ok(survey) => has_lines(alloc, judge(survey), wanted),
        Err(_) => Ok(false),
    }
}

/// Checks what a design is elaborated to.
fn expect(rt: &impl Abort, alloc: Global, design: &Design, wanted: &str) -> Result<(), Fail> {
    if !is_well_formed(alloc, design)? {
        panic!(rt; "the design is not well formed");
    }
    let elaborated = is_elaborated(alloc, design, wanted)?;
    assert!(rt; elaborated, "other columns than {wanted}");
    Ok(())
}

/// The nested netlist, with its last model as the root.
fn nested(rt: &impl Abort, alloc: Global) -> Design {
    Design {
        models: design_of(rt, alloc, NESTED).models,
        root: 2,
    }
}

#[test]
fn two_instances_of_a_model(rt: HostRuntime) -> Result<(), Fail> {
    let design = design_of(&rt, rt.alloc(), TWO);
    let wanted = "input 0\nconnection 6\nconnection 4\nconnection 0\nlatch true 3\nconnection 2\n\
latch true 5\nstart 3\nstart 5\n";
    expect(&rt, rt.alloc(), &design, wanted)
}

#[test]
fn an_instance_in_an_instance(rt: HostRuntime) -> Result<(), Fail> {
    let design = nested(&rt, rt.alloc());
    let wanted = "input 0\nconnection 3\nconnection 0\ncover 4 2\nconnection 6\nconnection 2\n\
latch false 5\nstart 2\n";
    expect(&rt, rt.alloc(), &design, wanted)
}

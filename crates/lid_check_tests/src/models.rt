//! Uses of models, and designs that are not well formed.

use crate::told::design_of;
use lid_base::Items;
use lid_check_hierarchy::{Uses, find_uses, is_well_formed};
use lid_cover::{Cover, Cube};
use lid_design::{Cell, Design, Model};
use std::alloc::{AllocError, Global};
use std::process::Abort;
use std::test::Fail;

/// `top` has two instances of `mid`, which has one of `reg`; `idle` is in no instance.
const NESTED: &str = ".model top\n.inputs ck x\n.outputs z\n.subckt mid d=x q=y c=ck\n\
.subckt mid d=y q=z c=ck\n.end\n.model idle\n.inputs i\n.outputs o\n.end\n.model reg\n.inputs a clk\n\
.outputs b\n.latch a b re clk 0\n.end\n.model mid\n.inputs d c\n.outputs q\n.subckt reg a=d b=q clk=c\n\
.end\n";

/// A cover of two inputs.
const GATE: &str = ".model m\n.inputs a b\n.outputs y\n.names a b y\n10 1\n.end\n";

/// Whether these are the uses of the models of the nested netlist.
fn are_nested(uses: &Uses<'_>) -> bool {
    uses.reached() == [0, 2, 3].as_slice()
        && uses.model_of(0, 1) == Some(3)
        && uses.model_of(0, 2).is_none()
        && uses.model_of(3, 0) == Some(2)
        && uses.model_of(2, 0).is_none()
}

/// Whether a design is well formed, and its models use each other as in the nested netlist.
fn is_nested(alloc: Global, design: &Design) -> Result<bool, AllocError> {
    if !is_well_formed(alloc, design)? {
        return Ok(false);
    }
    let uses = find_uses(alloc, design)?;
    Ok(are_nested(&uses))
}

#[test]
fn instances_name_models_and_reach_them(rt: HostRuntime) -> Result<(), Fail> {
    let design = design_of(&rt, rt.alloc(), NESTED);
    let nested = is_nested(rt.alloc(), &design)?;
    assert!(rt; nested);
    Ok(())
}

/// A cell, with another cover where it has one.
fn with_cover(cell: Cell, cover: Cover) -> Cell {
    match cell {
        Cell::Names { inputs, out, .. } => Cell::Names { inputs, out, cover },
        latch => latch,
    }
}

/// A model, with another cover in each of its cells: one row, for so many inputs.
fn with_row(alloc: Global, model: Model, inputs: u32, row: Cube) -> Result<Model, AllocError> {
    let mut cells = Vec::new(alloc);
    for cell in model.cells.into_vec() {
        let cover = Cover {
            inputs,
            on: true,
            cubes: Items::from_vec(vec![in alloc; row]?),
        };
        cells.push(with_cover(cell, cover))?;
    }
    Ok(Model {
        name: model.name,
        inputs: model.inputs,
        outputs: model.outputs,
        clocks: model.clocks,
        cells: Items::from_vec(cells),
        insts: model.insts,
    })
}

/// The gate, with a row for so many inputs in place of its own.
fn gated(rt: &impl Abort, alloc: Global, inputs: u32, row: Cube) -> Result<Design, AllocError> {
    let mut models = Vec::new(alloc);
    for model in design_of(rt, alloc, GATE).models.into_vec() {
        models.push(with_row(alloc, model, inputs, row)?)?;
    }
    Ok(Design {
        models: Items::from_vec(models),
        root: 0,
    })
}

/// Rows of the gate: the inputs that its cover counts, what a row looks at and wants, and whether the
/// design is well formed.
static ROWS: [(u32, u64, u64, bool); 4] = [
    (2, 3, 1, true),
    // more inputs than the cover counts
    (1, 1, 1, false),
    // a row that looks at a third input
    (2, 4, 0, false),
    // a value where the row does not look
    (2, 1, 2, false),
];

/// Whether the gate with a row is well formed exactly where it is wanted.
fn is_judged(
    rt: &impl Abort,
    alloc: Global,
    row: (u32, u64, u64, bool),
) -> Result<bool, AllocError> {
    let (inputs, care, value, wanted) = row;
    let design = gated(rt, alloc, inputs, Cube { care, value })?;
    Ok(is_well_formed(alloc, &design)? == wanted)
}

#[test]
fn covers_that_are_not_well_formed(rt: HostRuntime) -> Result<(), Fail> {
    for row in &ROWS {
        let judged = is_judged(&rt, rt.alloc(), *row)?;
        assert!(rt; judged, "row {} {} {}", row.0, row.1, row.2);
    }
    Ok(())
}

#[test]
fn models_that_are_not_well_formed(rt: HostRuntime) -> Result<(), Fail> {
    let alloc = rt.alloc();
    let models = design_of(&rt, alloc, GATE).models;
    let rootless = Design { models, root: 1 };
    assert!(rt; !is_well_formed(alloc, &rootless)?);
    let mut models = design_of(&rt, alloc, NESTED).models.into_vec();
    for model in design_of(&rt, alloc, ".model mid\n").models.into_vec() {
        models.push(model)?;
    }
    let twice = Design {
        models: Items::from_vec(models),
        root: 0,
    };
    assert!(rt; !is_well_formed(alloc, &twice)?);
    Ok(())
}

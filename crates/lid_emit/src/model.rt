//! The one model of an emitted design.

ghost use Rattle.std.specs.Prelude.{◌≡◌, ◌++◌, ◌∷◌, [], IfOk};
ghost use Rattle.lid_emit.specs.Steps.{root_name, model_with, design_with};
ghost use Rattle.lid_emit_meaning.specs.Ports.{input_names, output_names};

use lid_base::{Items, Name, copy_name, push_copies};
use lid_check::Checked;
use lid_design::{Cell, Design, Model};
use lid_emit_meaning::{BLOCK_NAME, OFFER_NAME, STOP_NAME, VALID_NAME};
use std::alloc::{AllocError, Global};

/// A model of some cells, with the name of the root, its ports, and those of its environment.
pub(crate) fn make_model(
    alloc: Global,
    checked: &Checked,
    cells: Vec<Cell>,
) -> Result<Model, AllocError>
    ensures { IfOk result (λ model. model ≡ model_with checked.now cells.items) }
{
    let ports = make_ports(alloc, checked)?;
    Ok(model_of(alloc, ports, cells))
}

/// The name and the ports of a model.
#[derive(Drop)]
struct Ports {
    name: Name,
    inputs: Items<Name>,
    outputs: Items<Name>,
}

/// A model without clocks and instances.
fn model_of(alloc: Global, ports: Ports, cells: Vec<Cell>) -> Model
    ensures { result ≡ record { name = ports.name; inputs = ports.inputs; outputs = ports.outputs; clocks = []; cells = cells.items; insts = [] } }
{
    let Ports {
        name,
        inputs,
        outputs,
    } = ports;
    Model {
        name,
        inputs,
        outputs,
        clocks: Items::from_vec(Vec::new(alloc)),
        cells: Items::from_vec(cells),
        insts: Items::from_vec(Vec::new(alloc)),
    }
}

/// The name of the root, and the names of the ports.
fn make_ports(alloc: Global, checked: &Checked) -> Result<Ports, AllocError>
    ensures { IfOk result (λ ports. (ports.name ≡ root_name checked.now) × (ports.inputs ≡ input_names checked.now)
        × (ports.outputs ≡ output_names checked.now)) }
{
    let inputs = inputs_of(alloc, checked)?;
    let outputs = outputs_of(alloc, checked)?;
    Ok(Ports {
        name: name_of_root(alloc, checked)?,
        inputs,
        outputs,
    })
}

/// The name of the root.
fn name_of_root(alloc: Global, checked: &Checked) -> Result<Name, AllocError>
    ensures { IfOk result (λ name. name ≡ root_name checked.now) }
{
    let models = checked.design().models.as_slice();
    copy_name(alloc, models[checked.root() as usize].name.as_slice())
}

/// The data inputs of the root, and then whether a row is offered, and whether none is taken.
fn inputs_of(alloc: Global, checked: &Checked) -> Result<Items<Name>, AllocError>
    ensures { IfOk result (λ names. names ≡ input_names checked.now) }
{
    names_and_two(alloc, checked.inputs(), OFFER_NAME, BLOCK_NAME)
}

/// The data outputs of the root, and then whether a row is offered, and whether none is taken.
fn outputs_of(alloc: Global, checked: &Checked) -> Result<Items<Name>, AllocError>
    ensures { IfOk result (λ names. names ≡ output_names checked.now) }
{
    names_and_two(alloc, checked.outputs(), VALID_NAME, STOP_NAME)
}

/// Some names, and two after them.
fn names_and_two(
    alloc: Global,
    names: &[Name],
    first: &[u8],
    second: &[u8],
) -> Result<Items<Name>, AllocError>
    ensures { IfOk result (λ all. all ≡ names.now ++ first.now ∷ second.now ∷ []) }
{
    let mut all = Vec::new(alloc);
    push_copies(alloc, names, &mut all)?;
    all.push(copy_name(alloc, first)?)?;
    all.push(copy_name(alloc, second)?)?;
    Ok(Items::from_vec(all))
}

/// A design of one model.
pub(crate) fn design_of(alloc: Global, model: Model) -> Result<Design, AllocError>
    ensures { IfOk result (λ design. design ≡ design_with model) }
{
    let mut models = Vec::new(alloc);
    models.push(model)?;
    Ok(Design {
        models: Items::from_vec(models),
        root: 0,
    })
}

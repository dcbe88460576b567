//! Lists of borrowed names, in the order in which a model gives them.

ghost use Rattle.std.specs.Prelude.{◌≡◌, [], ◌∷◌, ◌++◌, map, flat_map, option_map, slice_get, IfOk, OnOk};
ghost use denote.Ref.{Bor};
ghost use Rattle.lid_design.specs.declared.Model.{Model};
ghost use Rattle.lid_design.specs.Models.{occurrences, cell_names, cell_out, cell_reads, actual_of, actual_names, formal_of};
ghost use Rattle.lid_check_names.specs.Names.{texts, firsts, IsTally};

use crate::set::{NameSet, NameTally, tally_names};
use lid_base::Name;
use lid_design::{Bind, Cell, Design, Inst, Model};
use std::alloc::{AllocError, Global};

/// The nets that a model names, at all its places in order.
#[tactic(auto, unfolding(lid_design::specs::Models::occurrences))]
pub fn list_occurrences<'d>(alloc: Global, model: &'d Model) -> Result<Vec<&'d [u8]>, AllocError>
    ensures { IfOk result (λ list. texts list.items ≡ occurrences model.now) }
{
    let mut list = Vec::new(alloc);
    push_ports(&mut list, model)?;
    push_cells(&mut list, model.cells.as_slice())?;
    push_insts(&mut list, model.insts.as_slice())?;
    Ok(list)
}

/// Appends the names of the lists of a model.
pub fn push_ports<'d>(list: &mut Vec<&'d [u8]>, model: &'d Model) -> Result<(), AllocError>
    ensures { OnOk result (texts list.new.items ≡ texts list.old.items ++ model.now.inputs ++ model.now.outputs ++ model.now.clocks) }
{
    push_names(list, model.inputs.as_slice())?;
    push_names(list, model.outputs.as_slice())?;
    push_names(list, model.clocks.as_slice())
}

/// Appends some names.
pub fn push_names<'d>(list: &mut Vec<&'d [u8]>, names: &'d [Name]) -> Result<(), AllocError>
    ensures { OnOk result (texts list.new.items ≡ texts list.old.items ++ names.now) }
{
    for name in names {
        list.push(name.as_slice())?;
    }
    Ok(())
}

/// Appends the names of some cells.
fn push_cells<'d>(list: &mut Vec<&'d [u8]>, cells: &'d [Cell]) -> Result<(), AllocError>
    ensures { OnOk result (texts list.new.items ≡ texts list.old.items ++ flat_map cell_names cells.now) }
{
    for cell in cells {
        push_cell(list, cell)?;
    }
    Ok(())
}

/// Appends the names of a cell: inputs, control, output.
fn push_cell<'d>(list: &mut Vec<&'d [u8]>, cell: &'d Cell) -> Result<(), AllocError>
    ensures { OnOk result (texts list.new.items ≡ texts list.old.items ++ cell_names cell.now) }
{
    push_read(list, cell)?;
    if let Cell::Latch {
        control: Some(control),
        ..
    } = cell
    {
        push_name(list, control)?;
    }
    push_name(list, out_of(cell))
}

/// Appends what a cell reads.
fn push_read<'d>(list: &mut Vec<&'d [u8]>, cell: &'d Cell) -> Result<(), AllocError>
    ensures { OnOk result (texts list.new.items ≡ texts list.old.items ++ cell_reads cell.now) }
{
    match cell {
        Cell::Names { inputs, .. } => push_names(list, inputs.as_slice()),
        Cell::Latch { input, .. } => push_name(list, input),
    }
}

/// Appends a name.
pub fn push_name<'d>(list: &mut Vec<&'d [u8]>, name: &'d Name) -> Result<(), AllocError>
    ensures { OnOk result (texts list.new.items ≡ texts list.old.items ++ (name.now ∷ [])) }
{
    list.push(name.as_slice())?;
    Ok(())
}

/// Appends the actuals of some instances.
fn push_insts<'d>(list: &mut Vec<&'d [u8]>, insts: &'d [Inst]) -> Result<(), AllocError>
    ensures { OnOk result (texts list.new.items ≡ texts list.old.items ++ flat_map actual_names insts.now) }
{
    for inst in insts {
        push_actuals(list, inst.binds.as_slice())?;
    }
    Ok(())
}

/// Appends the actuals of some bindings.
fn push_actuals<'d>(list: &mut Vec<&'d [u8]>, binds: &'d [Bind]) -> Result<(), AllocError>
    ensures { OnOk result (texts list.new.items ≡ texts list.old.items ++ map actual_of binds.now) }
{
    for bind in binds {
        push_name(list, &bind.actual)?;
    }
    Ok(())
}

/// The formals of some bindings.
pub fn list_formals<'d>(alloc: Global, binds: &'d [Bind]) -> Result<Vec<&'d [u8]>, AllocError>
    ensures { IfOk result (λ list. texts list.items ≡ map formal_of binds.now) }
{
    let mut list = Vec::new(alloc);
    for bind in binds {
        push_name(&mut list, &bind.formal)?;
    }
    Ok(list)
}

/// Appends what some cells drive.
pub fn push_outs<'d>(list: &mut Vec<&'d [u8]>, cells: &'d [Cell]) -> Result<(), AllocError>
    ensures { OnOk result (texts list.new.items ≡ texts list.old.items ++ map cell_out cells.now) }
{
    for cell in cells {
        push_name(list, out_of(cell))?;
    }
    Ok(())
}

/// The net that a cell drives.
pub fn out_of(cell: &Cell) -> &Name
    ensures { result.now ≡ cell_out cell.now }
{
    match cell {
        Cell::Names { out, .. } => out,
        Cell::Latch { out, .. } => out,
    }
}

/// Appends what some cells read.
pub fn push_reads<'d>(list: &mut Vec<&'d [u8]>, cells: &'d [Cell]) -> Result<(), AllocError>
    ensures { OnOk result (texts list.new.items ≡ texts list.old.items ++ flat_map cell_reads cells.now) }
{
    for cell in cells {
        push_read(list, cell)?;
    }
    Ok(())
}

/// A set of the names of a list.
pub fn set_of<'d>(alloc: Global, names: &'d [Name]) -> Result<NameSet<'d>, AllocError>
    ensures { IfOk result (λ set. set ≡ firsts names.now) }
{
    let mut list = Vec::new(alloc);
    push_names(&mut list, names)?;
    NameSet::collect(alloc, list.as_slice())
}

/// The names of a list, and those that stand in it more than once.
pub fn tally_of<'d>(alloc: Global, names: &'d [Name]) -> Result<NameTally<'d>, AllocError>
    ensures { IfOk result (λ tally. IsTally names.now tally.all tally.twice) }
{
    let mut list = Vec::new(alloc);
    push_names(&mut list, names)?;
    tally_names(alloc, list.as_slice())
}

/// The model of a number.
pub fn model_at<'d>(design: &'d Design, number: u32) -> Option<&'d Model>
    ensures { option_map (λ (m : Bor Model). m.now) result ≡ slice_get design.now.models number }
{
    let models = design.models.as_slice();
    if (number as usize) < models.len() {
        Some(&models[number as usize])
    } else {
        None
    }
}

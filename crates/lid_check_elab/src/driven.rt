ghost use Rattle.std.specs.Prelude.{◌≡◌, ◌≤◌, ◌<◌, ◌^◌, ◌+◌, ◌∷◌, [], Some, length, map, flat_map, slice_get, IfOk, OnOk};
ghost use Rattle.lid_design.specs.Columns.{first_bit};
ghost use Rattle.lid_design.specs.Models.{insts_of, instance_number, IsReached, cell_reads, cell_out, actual_of, actual_names};
ghost use Rattle.std.specs.List.{enumerate_from};
ghost use Rattle.lid_check_table.specs.Tables.{AreNumbersOf};
ghost use Rattle.lid_check_drivers.specs.Locals.{inputs_from, local_of, output_driver, outputs_of, model_locals};
ghost use Rattle.lid_check_elab.specs.Templates.{model_names, name_at};
ghost use Rattle.lid_check_elab.specs.Covers.{cells_at};
ghost use Rattle.lid_check_elab.specs.Parts.{Grows, PushesNet, ShowsDrivers, data_of, output_sets};

use crate::places::{Numbered, place_at, place_in, places_at};
use crate::template::LocalDriver;
use lid_base::Name;
use lid_check_drivers::Judged;
use lid_check_names::{NameSet, set_of};
use lid_check_table::Table;
use lid_design::{Bind, Cell, Init, Model};
use std::alloc::{AllocError, Global};

/// What drives nets of a model, and the numbers of these nets in its table, in the same order.
#[derive(Drop)]
pub struct Driven {
    pub nets: Vec<u32>,
    pub locals: Vec<LocalDriver>,
}

/// A cell, with the numbers of what it reads and of what it drives.
#[derive(Clone, Copy)]
struct NumberedCell<'a> {
    cell: &'a Cell,
    reads: &'a [u32],
    out: u32,
}

/// The outputs of each of some models.
pub fn collect_outputs<'d>(
    alloc: Global,
    models: &'d [Model],
) -> Result<Vec<NameSet<'d>>, AllocError>
    ensures { IfOk result (λ sets. sets.items ≡ output_sets models.now) }
{
    let mut sets = Vec::with_capacity(alloc, models.len())?;
    for model in models {
        sets.push(set_of(alloc, model.outputs.as_slice())?)?;
    }
    Ok(sets)
}

/// All that drives nets of a model: its data inputs, its cells, and the outputs of its instances.
pub fn driven_of(
    alloc: Global,
    judged: &Judged<'_>,
    outputs: &[NameSet<'_>],
    model: u32,
) -> Result<Driven, AllocError>
    requires reached { IsReached judged.now model }
    requires outputs { outputs.now ≡ output_sets judged.now.models }
    ensures { IfOk result (ShowsDrivers judged.now model (model_locals judged.now model)) }
{
    let _ = judged.design();
    let table = judged.table_of(model);
    let mut driven = nothing_driven(alloc, table.inputs().len(), table.outs().len())?;
    push_inputs(&mut driven, judged, model, table)?;
    push_cells(alloc, &mut driven, judged, model, table)?;
    push_insts(&mut driven, judged, outputs, model, table)?;
    Ok(driven)
}

/// Nothing that drives nets, with room for so many inputs and cells.
fn nothing_driven(alloc: Global, inputs: usize, cells: usize) -> Result<Driven, AllocError>
    ensures nets { IfOk result (λ driven. driven.nets.items ≡ []) }
    ensures locals { IfOk result (λ driven. driven.locals.items ≡ []) }
{
    let room = inputs.wrapping_add(cells);
    let nets = Vec::with_capacity(alloc, room)?;
    let locals = Vec::with_capacity(alloc, room)?;
    Ok(Driven { nets, locals })
}

/// Pushes the number of a net, and what drives it.
fn push_net(into: &mut Driven, net: u32, local: LocalDriver) -> Result<(), AllocError>
    ensures { OnOk result (PushesNet net local into.old into.new) }
{
    into.locals.push(local)?;
    into.nets.push(net)?;
    Ok(())
}

/// Pushes the data inputs of a model.
fn push_inputs(
    into: &mut Driven,
    judged: &Judged<'_>,
    model: u32,
    table: &Table<'_>,
) -> Result<(), AllocError>
    requires reached { IsReached judged.now model }
    requires model { slice_get judged.now.models model ≡ Some table.now }
    requires few { length (data_of judged.now model table.now.inputs) ≤ 1048576 }
    ensures { OnOk result (Grows judged.now model (inputs_from 0 (data_of judged.now model table.now.inputs)) into.old into.new) }
{
    push_data(
        into,
        judged,
        model,
        table.model().inputs.as_slice(),
        table.inputs(),
    )
}

/// Pushes those of some names of a model that are no clock names, by their numbers.
fn push_data(
    into: &mut Driven,
    judged: &Judged<'_>,
    model: u32,
    names: &[Name],
    numbers: &[u32],
) -> Result<(), AllocError>
    requires reached { IsReached judged.now model }
    requires numbers { AreNumbersOf (model_names judged.now model) names.now numbers.now }
    requires few { length (data_of judged.now model names.now) ≤ 1048576 }
    ensures { OnOk result (Grows judged.now model (inputs_from 0 (data_of judged.now model names.now)) into.old into.new) }
{
    let mut count = 0;
    for i in 0..names.len() {
        count = push_input(into, judged, model, count, &names[i], numbers[i])?;
    }
    Ok(())
}

/// Pushes an input of a model where it is no clock name, and answers how many data inputs there are
/// then.
fn push_input(
    into: &mut Driven,
    judged: &Judged<'_>,
    model: u32,
    count: u32,
    input: &Name,
    number: u32,
) -> Result<u32, AllocError>
    requires reached { IsReached judged.now model }
    requires number { name_at judged.now model number ≡ Some input.now }
    requires few { count + length (data_of judged.now model (input.now ∷ [])) ≤ 1048576 }
    ensures pushed { OnOk result (Grows judged.now model (inputs_from count (data_of judged.now model (input.now ∷ []))) into.old into.new) }
    ensures next { IfOk result (λ next. next ≡ count + length (data_of judged.now model (input.now ∷ []))) }
{
    if judged.is_clock(model, input.as_slice()) {
        return Ok(count);
    }
    push_net(into, number, LocalDriver::Input(count))?;
    Ok(count + 1)
}

/// Pushes the cells of a model.
fn push_cells(
    alloc: Global,
    into: &mut Driven,
    judged: &Judged<'_>,
    model: u32,
    table: &Table<'_>,
) -> Result<(), AllocError>
    requires reached { IsReached judged.now model }
    requires model { slice_get judged.now.models model ≡ Some table.now }
    requires few { length table.now.cells ≤ 1048576 }
    ensures { OnOk result (Grows judged.now model (map local_of table.now.cells) into.old into.new) }
{
    let cells = table.model().cells.as_slice();
    let outs = table.outs();
    let mut left = table.reads();
    for i in 0..cells.len() {
        let cell = &cells[i];
        let (reads, rest) = left.split_at(count_reads(cell));
        let numbered = NumberedCell {
            cell,
            reads,
            out: outs[i],
        };
        push_cell(alloc, into, judged, model, i as u32, numbered)?;
        left = rest;
    }
    Ok(())
}

/// How many names a cell reads.
fn count_reads(cell: &Cell) -> usize
    ensures { result ≡ length (cell_reads cell.now) }
{
    match cell {
        Cell::Names { inputs, .. } => inputs.len(),
        Cell::Latch { .. } => 1,
    }
}

/// Pushes a cell of a model, by its number there.
fn push_cell(
    alloc: Global,
    into: &mut Driven,
    judged: &Judged<'_>,
    model: u32,
    i: u32,
    numbered: NumberedCell<'_>,
) -> Result<(), AllocError>
    requires reached { IsReached judged.now model }
    requires cell { slice_get (cells_at judged.now model) i ≡ Some numbered.cell.now }
    requires reads { AreNumbersOf (model_names judged.now model) (cell_reads numbered.cell.now) numbered.reads.now }
    requires out { name_at judged.now model numbered.out ≡ Some (cell_out numbered.cell.now) }
    ensures { OnOk result (Grows judged.now model (local_of numbered.entry.cell.now ∷ []) into.old into.new) }
{
    match numbered.cell {
        Cell::Names { .. } => {
            let inputs = places_at(alloc, judged, model, numbered.reads)?;
            let local = LocalDriver::Cover {
                model,
                cell: i,
                inputs,
            };
            push_net(into, numbered.out, local)
        }
        Cell::Latch { init, .. } => {
            let first = first_bit(*init);
            let input = place_at(judged, model, numbered.reads[0]);
            push_net(into, numbered.out, LocalDriver::Latch { first, input })
        }
    }
}

/// The bit that a latch begins with.
fn first_bit(init: Init) -> bool
    ensures { result ≡ first_bit init }
{
    match init {
        Init::One => true,
        Init::Zero | Init::DontCare | Init::Unknown => false,
    }
}

/// Pushes the outputs of the instances of a model.
fn push_insts(
    into: &mut Driven,
    judged: &Judged<'_>,
    outputs: &[NameSet<'_>],
    model: u32,
    table: &Table<'_>,
) -> Result<(), AllocError>
    requires reached { IsReached judged.now model }
    requires outputs { outputs.now ≡ output_sets judged.now.models }
    requires model { slice_get judged.now.models model ≡ Some table.now }
    requires few { length table.now.insts < 2 ^ 32 }
    ensures { OnOk result (Grows judged.now model (flat_map (outputs_of judged.now) (enumerate_from 0 table.now.insts)) into.old into.new) }
{
    let insts = table.model().insts.as_slice();
    let mut left = table.actuals();
    for i in 0..insts.len() {
        let inst = &insts[i];
        let (actuals, rest) = left.split_at(inst.binds.len());
        push_inst(
            into,
            judged,
            outputs,
            model,
            i as u32,
            Numbered { inst, actuals },
        )?;
        left = rest;
    }
    Ok(())
}

/// Pushes the outputs of an instance of a model.
fn push_inst(
    into: &mut Driven,
    judged: &Judged<'_>,
    outputs: &[NameSet<'_>],
    model: u32,
    i: u32,
    numbered: Numbered<'_>,
) -> Result<(), AllocError>
    requires reached { IsReached judged.now model }
    requires outputs { outputs.now ≡ output_sets judged.now.models }
    requires inst { slice_get (insts_of judged.now model) i ≡ Some numbered.inst.now }
    requires actuals { AreNumbersOf (model_names judged.now model) (actual_names numbered.inst.now) numbered.actuals.now }
    ensures { OnOk result (Grows judged.now model (outputs_of judged.now (i, numbered.entry.inst.now)) into.old into.new) }
{
    let _ = judged.design();
    match judged.model_of(model, i) {
        Some(sub) => {
            let formals = &outputs[sub as usize];
            let at = Instance {
                model,
                number: i,
                sub,
            };
            let binds = numbered.inst.binds.as_slice();
            push_binds(into, judged, formals, at, binds, numbered.actuals)
        }
        None => Ok(()),
    }
}

/// An instance of a model, by its number there, and the number of its own model.
#[derive(Clone, Copy)]
struct Instance {
    model: u32,
    number: u32,
    sub: u32,
}

/// Pushes the outputs of an instance of a model, by its bindings and the outputs of its model.
fn push_binds(
    into: &mut Driven,
    judged: &Judged<'_>,
    formals: &NameSet<'_>,
    at: Instance,
    binds: &[Bind],
    actuals: &[u32],
) -> Result<(), AllocError>
    requires reached { IsReached judged.now at.sub }
    requires sub { instance_number judged.now at.number at.model ≡ Some at.sub }
    requires actuals { AreNumbersOf (model_names judged.now at.model) (map actual_of binds.now) actuals.now }
    ensures { OnOk result (Grows judged.now at.model (flat_map (output_driver formals.now at.number) binds.now) into.old into.new) }
{
    for i in 0..binds.len() {
        push_bind(into, judged, formals, at, &binds[i], actuals[i])?;
    }
    Ok(())
}

/// Pushes what a binding of an instance drives, where it binds an output.
fn push_bind(
    into: &mut Driven,
    judged: &Judged<'_>,
    formals: &NameSet<'_>,
    at: Instance,
    bind: &Bind,
    actual: u32,
) -> Result<(), AllocError>
    requires reached { IsReached judged.now at.sub }
    requires sub { instance_number judged.now at.number at.model ≡ Some at.sub }
    requires actual { name_at judged.now at.model actual ≡ Some bind.now.actual }
    ensures { OnOk result (Grows judged.now at.model (output_driver formals.now at.number bind.now) into.old into.new) }
{
    if formals.has(bind.formal.as_slice()) {
        let net = place_in(judged, at.sub, bind.formal.as_slice());
        push_net(
            into,
            actual,
            LocalDriver::Connection {
                inst: at.number,
                net,
            },
        )
    } else {
        Ok(())
    }
}

//! The walk over a model that numbers its places.

ghost use Rattle.std.specs.Prelude.{◌≡◌, ◌∷◌, [], map, flat_map, slice_get, IfOk, OnOk};
ghost use Rattle.lid_design.specs.Models.{cell_names, cell_reads, cell_out, actual_of, actual_names};
ghost use Rattle.lid_check_table.specs.Tables.{AreNumbersOf, with_names, cell_controls, Enters, EntersCells};

use lid_base::Name;
use lid_check_names::{NameSet, out_of};
use lid_design::{Bind, Cell, Inst};
use std::alloc::AllocError;

/// The numbers of what cells read, and of what they drive.
#[derive(Drop)]
pub struct CellLists {
    pub reads: Vec<u32>,
    pub outs: Vec<u32>,
}

/// The number of a place. There are not so many names that it has none.
pub fn number_at(place: usize) -> Result<u32, AllocError>
    ensures { IfOk result (λ number. number ≡ place) }
{
    if place < 1 << 32 {
        Ok(place as u32)
    } else {
        Err(AllocError)
    }
}

/// Adds a name, and pushes its number.
fn enter<'d>(
    names: &mut NameSet<'d>,
    numbers: &mut Vec<u32>,
    name: &'d Name,
) -> Result<(), AllocError>
    ensures { OnOk result (Enters names.old names.new numbers.old.items numbers.new.items (name.now ∷ [])) }
{
    let place = names.enter(name.as_slice())?;
    numbers.push(number_at(place)?)?;
    Ok(())
}

/// Adds some names, and pushes their numbers.
pub fn enter_names<'d>(
    names: &mut NameSet<'d>,
    numbers: &mut Vec<u32>,
    list: &'d [Name],
) -> Result<(), AllocError>
    ensures { OnOk result (Enters names.old names.new numbers.old.items numbers.new.items list.now) }
{
    for name in list {
        enter(names, numbers, name)?;
    }
    Ok(())
}

/// Adds the names of some cells, and pushes the numbers of what they read and drive.
pub fn enter_cells<'d>(
    names: &mut NameSet<'d>,
    into: &mut CellLists,
    cells: &'d [Cell],
) -> Result<(), AllocError>
    ensures { OnOk result (EntersCells names.old names.new into.old.reads.items into.new.reads.items into.old.outs.items into.new.outs.items cells.now) }
{
    for cell in cells {
        enter_cell(names, into, cell)?;
    }
    Ok(())
}

/// Adds the names of a cell, and pushes the numbers of what it reads and drives.
fn enter_cell<'d>(
    names: &mut NameSet<'d>,
    into: &mut CellLists,
    cell: &'d Cell,
) -> Result<(), AllocError>
    ensures { OnOk result (EntersCells names.old names.new into.old.reads.items into.new.reads.items into.old.outs.items into.new.outs.items (cell.now ∷ [])) }
{
    enter_reads(names, &mut into.reads, cell)?;
    enter_control(names, cell)?;
    enter(names, &mut into.outs, out_of(cell))
}

/// Adds what a cell reads, and pushes the numbers.
fn enter_reads<'d>(
    names: &mut NameSet<'d>,
    numbers: &mut Vec<u32>,
    cell: &'d Cell,
) -> Result<(), AllocError>
    ensures { OnOk result (Enters names.old names.new numbers.old.items numbers.new.items (cell_reads cell.now)) }
{
    match cell {
        Cell::Names { inputs, .. } => enter_names(names, numbers, inputs.as_slice()),
        Cell::Latch { input, .. } => enter(names, numbers, input),
    }
}

/// Adds the control of a cell.
fn enter_control<'d>(names: &mut NameSet<'d>, cell: &'d Cell) -> Result<(), AllocError>
    ensures { OnOk result (names.new ≡ with_names names.old (cell_controls cell.now)) }
{
    if let Cell::Latch {
        control: Some(control),
        ..
    } = cell
    {
        names.add(control.as_slice())?;
    }
    Ok(())
}

/// Adds the actuals of some instances, and pushes their numbers.
pub fn enter_insts<'d>(
    names: &mut NameSet<'d>,
    numbers: &mut Vec<u32>,
    insts: &'d [Inst],
) -> Result<(), AllocError>
    ensures { OnOk result (Enters names.old names.new numbers.old.items numbers.new.items (flat_map actual_names insts.now)) }
{
    for inst in insts {
        enter_actuals(names, numbers, inst.binds.as_slice())?;
    }
    Ok(())
}

/// Adds the actuals of some bindings, and pushes their numbers.
fn enter_actuals<'d>(
    names: &mut NameSet<'d>,
    numbers: &mut Vec<u32>,
    binds: &'d [Bind],
) -> Result<(), AllocError>
    ensures { OnOk result (Enters names.old names.new numbers.old.items numbers.new.items (map actual_of binds.now)) }
{
    for bind in binds {
        enter(names, numbers, &bind.actual)?;
    }
    Ok(())
}

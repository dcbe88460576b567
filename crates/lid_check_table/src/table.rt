ghost use Rattle.std.specs.Prelude.{◌≡◌, ◌<◌, ◌^◌, ◌++◌, [], ℕ, List, length, map, flat_map, option_map, position, slice_get, IfOk, OnOk};
ghost use denote.Ref.{Bor};
ghost use Rattle.std.specs.Str.{bytes_eq};
ghost use Rattle.lid_design.specs.Models.{cell_names, cell_reads, cell_out, actual_names};
ghost use Rattle.lid_check_table.specs.Tables.{names_in, AreNumbersOf, AreNumbers, ArePortNumbers, AreCellNumbers, with_names};

use crate::entering::{CellLists, enter_cells, enter_insts, enter_names};
use lid_base::{Items, Name};
use lid_check_names::{NameSet, list_occurrences};
use lid_design::{Cell, Inst};
use std::alloc::{AllocError, Global};
use std::marker::Model;

/// The names of a model, each once, and the number of the name at each place of the model: that of a
/// name is its place among them. A contract sees the model.
#[derive(Drop)]
pub struct Table<'d> {
    model: &'d lid_design::Model,
    names: NameSet<'d>,
    numbers: Numbers,
}

/// The numbers of the names at the places of a model.
#[derive(Drop)]
struct Numbers {
    ports: PortNumbers,
    cells: CellNumbers,
    actuals: Items<u32>,
}

/// The numbers of the names in the lists of a model.
#[derive(Drop)]
struct PortNumbers {
    inputs: Items<u32>,
    outputs: Items<u32>,
    clocks: Items<u32>,
}

/// The numbers of what the cells of a model read, and of what they drive.
#[derive(Drop)]
struct CellNumbers {
    reads: Items<u32>,
    outs: Items<u32>,
}

impl<'d> Model for Table<'d> {
    ghost use Rattle.lid_design.specs.declared.Model.{Model};
    ghost use Rattle.lid_check_table.specs.Tables.{IsTable};

    ghost Value = { Model };

    ghost view = { λ s. s.model.now };

    ghost invariant = { λ s. IsTable s.model.now s.names s.numbers.ports.inputs s.numbers.ports.outputs s.numbers.ports.clocks s.numbers.cells.reads s.numbers.cells.outs s.numbers.actuals };
}

impl<'d> Table<'d> {
    /// Numbers the names of a model, in the order in which they first come.
    ///
    /// # Errors
    /// Where there is no memory, or there are more names than numbers.
    pub fn collect(alloc: Global, model: &'d lid_design::Model) -> Result<Table<'d>, AllocError>
        ensures { IfOk result (λ table. table ≡ model.now) }
    {
        let mut names = no_names(alloc, model)?;
        let numbers = number_all(alloc, &mut names, model)?;
        Ok(Table {
            model,
            names,
            numbers,
        })
    }

    /// The model.
    pub fn model(&self) -> &'d lid_design::Model
        ensures { result.now ≡ self.now }
    {
        self.model
    }

    /// How many names there are.
    pub fn len(&self) -> usize
        ensures { result ≡ length (names_in self.now) }
    {
        self.names.len()
    }

    /// The name of a number.
    pub fn name_at(&self, number: usize) -> Option<&'d [u8]>
        ensures { option_map (λ (r : Bor (List ℕ)). r.now) result ≡ slice_get (names_in self.now) number }
    {
        self.names.name_at(number)
    }

    /// The number of a name.
    pub fn number_of(&self, name: &[u8]) -> Option<usize>
        ensures { result ≡ position (bytes_eq name.now) (names_in self.now) }
    {
        self.names.place_of(name)
    }

    /// The numbers of the inputs.
    pub fn inputs(&self) -> &[u32]
        ensures { AreNumbersOf (names_in self.now) self.now.inputs result.now }
    {
        self.numbers.ports.inputs.as_slice()
    }

    /// The numbers of the outputs.
    pub fn outputs(&self) -> &[u32]
        ensures { AreNumbersOf (names_in self.now) self.now.outputs result.now }
    {
        self.numbers.ports.outputs.as_slice()
    }

    /// The numbers of the clocks.
    pub fn clocks(&self) -> &[u32]
        ensures { AreNumbersOf (names_in self.now) self.now.clocks result.now }
    {
        self.numbers.ports.clocks.as_slice()
    }

    /// The numbers of what the cells read, cell by cell.
    pub fn reads(&self) -> &[u32]
        ensures { AreNumbersOf (names_in self.now) (flat_map cell_reads self.now.cells) result.now }
    {
        self.numbers.cells.reads.as_slice()
    }

    /// The numbers of what the cells drive.
    pub fn outs(&self) -> &[u32]
        ensures { AreNumbersOf (names_in self.now) (map cell_out self.now.cells) result.now }
    {
        self.numbers.cells.outs.as_slice()
    }

    /// The numbers of the actuals, instance by instance.
    pub fn actuals(&self) -> &[u32]
        ensures { AreNumbersOf (names_in self.now) (flat_map actual_names self.now.insts) result.now }
    {
        self.numbers.actuals.as_slice()
    }
}

/// No names, where those of a model are to come.
fn no_names<'d>(alloc: Global, model: &'d lid_design::Model) -> Result<NameSet<'d>, AllocError>
    ensures { IfOk result (λ names. names ≡ []) }
{
    let list = list_occurrences(alloc, model)?;
    Ok(NameSet::for_names(alloc, list.as_slice()))
}

/// Adds the names of a model, and numbers its places.
fn number_all<'d>(
    alloc: Global,
    names: &mut NameSet<'d>,
    model: &'d lid_design::Model,
) -> Result<Numbers, AllocError>
    requires { names.old ≡ [] }
    ensures names { OnOk result (names.new ≡ names_in model.now) }
    ensures numbers { IfOk result (λ n. AreNumbers model.now n.ports.inputs n.ports.outputs n.ports.clocks n.cells.reads n.cells.outs n.actuals) }
{
    let ports = number_ports(alloc, names, model)?;
    let cells = number_cells(alloc, names, model.cells.as_slice())?;
    let actuals = number_actuals(alloc, names, model.insts.as_slice())?;
    Ok(Numbers {
        ports,
        cells,
        actuals,
    })
}

/// Adds the names in the lists of a model, and numbers them.
fn number_ports<'d>(
    alloc: Global,
    names: &mut NameSet<'d>,
    model: &'d lid_design::Model,
) -> Result<PortNumbers, AllocError>
    ensures names { OnOk result (names.new ≡ with_names names.old (model.now.inputs ++ model.now.outputs ++ model.now.clocks)) }
    ensures numbers { IfOk result (λ n. ArePortNumbers model.now names.new n.inputs n.outputs n.clocks) }
{
    let inputs = number_names(alloc, names, model.inputs.as_slice())?;
    let outputs = number_names(alloc, names, model.outputs.as_slice())?;
    let clocks = number_names(alloc, names, model.clocks.as_slice())?;
    Ok(PortNumbers {
        inputs,
        outputs,
        clocks,
    })
}

/// Adds the names of a list, and numbers them.
fn number_names<'d>(
    alloc: Global,
    names: &mut NameSet<'d>,
    list: &'d [Name],
) -> Result<Items<u32>, AllocError>
    ensures names { OnOk result (names.new ≡ with_names names.old list.now) }
    ensures numbers { IfOk result (AreNumbersOf names.new list.now) }
{
    let mut numbers = Vec::with_capacity(alloc, list.len())?;
    enter_names(names, &mut numbers, list)?;
    Ok(Items::from_vec(numbers))
}

/// Adds the names of some cells, and numbers what they read and drive.
fn number_cells<'d>(
    alloc: Global,
    names: &mut NameSet<'d>,
    cells: &'d [Cell],
) -> Result<CellNumbers, AllocError>
    ensures names { OnOk result (names.new ≡ with_names names.old (flat_map cell_names cells.now)) }
    ensures numbers { IfOk result (λ n. AreCellNumbers cells.now names.new n.reads n.outs) }
{
    let mut into = no_cells(alloc, cells.len())?;
    enter_cells(names, &mut into, cells)?;
    let CellLists { reads, outs } = into;
    Ok(CellNumbers {
        reads: Items::from_vec(reads),
        outs: Items::from_vec(outs),
    })
}

/// No numbers, with room for those of so many cells.
fn no_cells(alloc: Global, room: usize) -> Result<CellLists, AllocError>
    ensures reads { IfOk result (λ into. into.reads.items ≡ []) }
    ensures outs { IfOk result (λ into. into.outs.items ≡ []) }
{
    let reads = Vec::with_capacity(alloc, room)?;
    let outs = Vec::with_capacity(alloc, room)?;
    Ok(CellLists { reads, outs })
}

/// Adds the actuals of some instances, and numbers them.
fn number_actuals<'d>(
    alloc: Global,
    names: &mut NameSet<'d>,
    insts: &'d [Inst],
) -> Result<Items<u32>, AllocError>
    ensures names { OnOk result (names.new ≡ with_names names.old (flat_map actual_names insts.now)) }
    ensures numbers { IfOk result (AreNumbersOf names.new (flat_map actual_names insts.now)) }
{
    let mut numbers = Vec::new(alloc);
    enter_insts(names, &mut numbers, insts)?;
    Ok(Items::from_vec(numbers))
}

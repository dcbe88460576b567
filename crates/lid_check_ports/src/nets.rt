ghost use Rattle.std.specs.Prelude.{◌≡◌, ◌<◌, ◌^◌, ◌++◌, [], ◌∷◌, ℕ, List, Some, not, if◌then◌else◌, map, filter, flat_map, length, slice_get, IfOk, OnOk};
ghost use Rattle.lid_design.specs.Models.{IsReached, insts_of, driver_names, inner_drivers, read_names, port_drivers, actual_names, actual_of};
ghost use Rattle.lid_check_table.specs.Tables.{names_in, AreNumbersOf, Appends};
ghost use Rattle.lid_check_table.specs.Marks.{marks_of, again_of};
ghost use Rattle.lid_check_ports.specs.declared.ports.Port.TheVariants.{Input};
ghost use Rattle.lid_check_ports.specs.Ports.{is_in};
ghost use Rattle.lid_check_ports.specs.Nets.{AreNets, is_on, actuals_on, nets_on};

use crate::ports::{Port, Ports};
use lid_base::{Items, Name};
use lid_check_table::{MarkTally, Table, mark_names, tally_marks};
use lid_design::{Bind, Inst, Model};
use std::alloc::{AllocError, Global};

/// What a binding does to its actual.
#[derive(Clone, Copy)]
pub enum Side {
    /// It drives the actual: the formal is an output.
    Driven,
    /// It reads the actual: the formal is a data input.
    Read,
}

/// What is driven and read in a model, by the numbers of its names.
#[derive(Drop)]
pub struct Nets<'s, 'd> {
    pub table: &'s Table<'d>,
    pub drivers: Drivers,
    /// For each name, whether it is read.
    pub reads: Items<bool>,
}

/// What is driven in a model.
#[derive(Drop)]
pub struct Drivers {
    /// For each name, whether it is driven, and whether it is driven more than once.
    pub all: MarkTally,
    /// For each name, whether cells or instances drive it.
    pub inner: Items<bool>,
}

/// An instance, with the numbers of its actuals.
#[derive(Clone, Copy)]
struct Numbered<'a> {
    inst: &'a Inst,
    actuals: &'a [u32],
}

/// Finds what is driven and read in a reached model.
pub fn collect_nets<'s, 'd>(
    alloc: Global,
    ports: &'s Ports<'d>,
    k: u32,
) -> Result<Nets<'s, 'd>, AllocError>
    requires { IsReached ports.now k }
    ensures { IfOk result (AreNets ports.now k) }
{
    let survey = ports.survey();
    let _ = survey.design();
    let table = survey.table_of(k);
    let drivers = collect_drivers(alloc, ports, k, table)?;
    let reads = collect_reads(alloc, ports, k, table)?;
    Ok(Nets {
        table,
        drivers,
        reads,
    })
}

/// The nets that are driven in a model.
fn collect_drivers(
    alloc: Global,
    ports: &Ports<'_>,
    k: u32,
    table: &Table<'_>,
) -> Result<Drivers, AllocError>
    requires reached { IsReached ports.now k }
    requires model { slice_get ports.now.models k ≡ Some table.now }
    requires few { length table.now.insts < 2 ^ 32 }
    ensures all { IfOk result (λ drivers. drivers.all.all ≡ marks_of (names_in table.now) (driver_names ports.now table.now)) }
    ensures twice { IfOk result (λ drivers. drivers.all.twice ≡ again_of (names_in table.now) (driver_names ports.now table.now)) }
    ensures inner { IfOk result (λ drivers. drivers.inner ≡ marks_of (names_in table.now) (inner_drivers ports.now table.now)) }
{
    let mut list = Vec::new(alloc);
    append_inner(&mut list, ports, k, table)?;
    let inner = mark_names(alloc, table, list.as_slice())?;
    append_ports(&mut list, ports, k, table)?;
    let all = tally_marks(alloc, table, list.as_slice())?;
    Ok(Drivers { all, inner })
}

/// The nets that are read in a model.
fn collect_reads(
    alloc: Global,
    ports: &Ports<'_>,
    k: u32,
    table: &Table<'_>,
) -> Result<Items<bool>, AllocError>
    requires reached { IsReached ports.now k }
    requires model { slice_get ports.now.models k ≡ Some table.now }
    requires few { length table.now.insts < 2 ^ 32 }
    ensures { IfOk result (λ marks. marks ≡ marks_of (names_in table.now) (read_names ports.now table.now)) }
{
    let mut list = Vec::new(alloc);
    append_all(&mut list, table.reads())?;
    append_nets(&mut list, ports, Side::Read, k, table)?;
    append_all(&mut list, table.outputs())?;
    mark_names(alloc, table, list.as_slice())
}

/// Appends numbers.
fn append_all(list: &mut Vec<u32>, numbers: &[u32]) -> Result<(), AllocError>
    ensures { OnOk result ((names own : List (List ℕ)) → AreNumbersOf names own numbers.now → Appends names list.old.items list.new.items own) }
{
    list.extend_from_slice(numbers)?;
    Ok(())
}

/// Appends the number at a place, where it is wanted.
fn append_at(
    list: &mut Vec<u32>,
    numbers: &[u32],
    place: usize,
    wanted: bool,
) -> Result<(), AllocError>
    requires { place < length numbers.now }
    ensures { OnOk result ((names own : List (List ℕ)) (name : List ℕ) → AreNumbersOf names own numbers.now → slice_get own place ≡ Some name → Appends names list.old.items list.new.items (if wanted then name ∷ [] else [])) }
{
    if !wanted {
        return Ok(());
    }
    let number = numbers[place];
    list.push(number)?;
    Ok(())
}

/// Appends what cells and instances of a model drive.
fn append_inner(
    list: &mut Vec<u32>,
    ports: &Ports<'_>,
    k: u32,
    table: &Table<'_>,
) -> Result<(), AllocError>
    requires reached { IsReached ports.now k }
    requires model { slice_get ports.now.models k ≡ Some table.now }
    requires few { length table.now.insts < 2 ^ 32 }
    ensures { OnOk result (Appends (names_in table.now) list.old.items list.new.items (inner_drivers ports.now table.now)) }
{
    append_all(list, table.outs())?;
    append_nets(list, ports, Side::Driven, k, table)
}

/// Appends what the lists of a model drive, by the numbers of its names: a name of both lists once.
pub fn append_ports(
    list: &mut Vec<u32>,
    ports: &Ports<'_>,
    k: u32,
    table: &Table<'_>,
) -> Result<(), AllocError>
    requires { slice_get ports.now.models k ≡ Some table.now }
    ensures { OnOk result (Appends (names_in table.now) list.old.items list.new.items (port_drivers table.now)) }
{
    append_all(list, table.inputs())?;
    append_others(
        list,
        ports,
        k,
        table.model().clocks.as_slice(),
        table.clocks(),
    )
}

/// Appends the numbers of those of some names that are no inputs of a model.
fn append_others(
    list: &mut Vec<u32>,
    ports: &Ports<'_>,
    k: u32,
    names: &[Name],
    numbers: &[u32],
) -> Result<(), AllocError>
    requires { length numbers.now ≡ length names.now }
    ensures { OnOk result ((all : List (List ℕ)) → AreNumbersOf all names.now numbers.now → Appends all list.old.items list.new.items (filter (λ net. not (is_in ports.now Input k net)) names.now)) }
{
    for i in 0..names.len() {
        let wanted = !ports.has(Port::Input, k, names[i].as_slice());
        append_at(list, numbers, i, wanted)?;
    }
    Ok(())
}

/// Appends the nets that instances of a model drive, or read.
fn append_nets(
    list: &mut Vec<u32>,
    ports: &Ports<'_>,
    side: Side,
    model: u32,
    table: &Table<'_>,
) -> Result<(), AllocError>
    requires reached { IsReached ports.now model }
    requires insts { insts_of ports.now model ≡ table.now.insts }
    requires few { length table.now.insts < 2 ^ 32 }
    ensures { OnOk result (Appends (names_in table.now) list.old.items list.new.items (flat_map (nets_on side ports.now) table.now.insts)) }
{
    let insts = table.model().insts.as_slice();
    let mut left = table.actuals();
    for i in 0..insts.len() {
        let inst = &insts[i];
        let (actuals, rest) = left.split_at(inst.binds.len());
        append_inst(
            list,
            ports,
            side,
            model,
            i as u32,
            Numbered { inst, actuals },
        )?;
        left = rest;
    }
    Ok(())
}

/// Appends the nets that an instance of a model drives, or reads.
fn append_inst(
    list: &mut Vec<u32>,
    ports: &Ports<'_>,
    side: Side,
    model: u32,
    i: u32,
    numbered: Numbered<'_>,
) -> Result<(), AllocError>
    requires reached { IsReached ports.now model }
    requires inst { slice_get (insts_of ports.now model) i ≡ Some numbered.inst.now }
    requires whole { length numbered.actuals.now ≡ length numbered.inst.now.binds }
    ensures { OnOk result ((names : List (List ℕ)) → AreNumbersOf names (actual_names numbered.entry.inst.now) numbered.entry.actuals.now → Appends names list.old.items list.new.items (nets_on side ports.now numbered.entry.inst.now)) }
{
    match ports.model_of(model, i) {
        Some(sub) => {
            let binds = numbered.inst.binds.as_slice();
            append_actuals(list, ports, side, sub, binds, numbered.actuals)
        }
        None => Ok(()),
    }
}

/// Appends the actuals that bindings to formals of a model drive, or read.
fn append_actuals(
    list: &mut Vec<u32>,
    ports: &Ports<'_>,
    side: Side,
    sub: u32,
    binds: &[Bind],
    actuals: &[u32],
) -> Result<(), AllocError>
    requires reached { IsReached ports.now sub }
    requires whole { length actuals.now ≡ length binds.now }
    ensures { OnOk result ((names : List (List ℕ)) → AreNumbersOf names (map actual_of binds.now) actuals.now → Appends names list.old.items list.new.items (actuals_on side ports.now sub binds.now)) }
{
    for i in 0..binds.len() {
        let wanted = is_on(ports, side, sub, binds[i].formal.as_slice());
        append_at(list, actuals, i, wanted)?;
    }
    Ok(())
}

/// Whether a binding to a formal of a model drives the actual, or reads it.
fn is_on(ports: &Ports<'_>, side: Side, sub: u32, formal: &[u8]) -> bool
    requires { IsReached ports.now sub }
    ensures { result ≡ is_on side ports.now sub formal.now }
{
    match side {
        Side::Driven => ports.has(Port::Output, sub, formal),
        Side::Read => ports.has(Port::Input, sub, formal) && !ports.survey().is_clock(sub, formal),
    }
}

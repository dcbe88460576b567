ghost use Rattle.std.specs.Prelude.{◌≡◌, ◌||◌, ◌++◌, [], ◌∷◌, ℕ, List, not, Some, Option, filter, find, length, option_map, slice_get, IfOk, OnOk};
ghost use Rattle.std.specs.List.{AllByRecursion};
ghost use denote.Ref.{Bor};
ghost use Rattle.lid_cover.specs.Cover.{IsCover};
ghost use Rattle.lid_check_names.specs.Names.{texts};
ghost use Rattle.lid_check_table.specs.Tables.{names_in, AreNumbersOf};
ghost use Rattle.lid_design.specs.declared.Cell.{Cell};
ghost use Rattle.lid_design.specs.WellFormed.{IsWellFormedCell};
ghost use Rattle.lid_design.specs.Columns.{is_clock};
ghost use Rattle.lid_design.specs.Models.{IsReached, is_clock_of, port_drivers, is_buffer, is_constant};
ghost use Rattle.lid_check_rules.specs.Buffers.{passes_on};
ghost use Rattle.lid_check_rules.specs.Conditions.{first_two, two_clocks, root_logic, logic_in};
ghost use Rattle.lid_check_rules.specs.Told.{shown_of};

use crate::told::Told;
use lid_check_names::out_of;
use lid_check_ports::{Ports, append_ports};
use lid_check_table::Table;
use lid_cover::{Cover, eval};
use lid_design::{Cell, Model};
use std::alloc::{AllocError, Global};

/// Tells of the first two clock names of the root, where it has more than one.
pub fn find_two_clocks<'d>(alloc: Global, ports: &Ports<'d>) -> Result<Option<Told<'d>>, AllocError>
    ensures { IfOk result (λ told. shown_of told ≡ two_clocks ports.now) }
{
    let survey = ports.survey();
    let root = survey.design().root;
    find_two_clocks_in(alloc, ports, root, survey.table_of(root))
}

/// Tells of the first two clock names of a model, where it has more than one.
fn find_two_clocks_in<'d>(
    alloc: Global,
    ports: &Ports<'d>,
    k: u32,
    table: &Table<'d>,
) -> Result<Option<Told<'d>>, AllocError>
    requires reached { IsReached ports.now k }
    requires model { slice_get ports.now.models k ≡ Some table.now }
    ensures { IfOk result (λ told. shown_of told ≡ first_two (filter (is_clock ports.now table.now) (port_drivers table.now))) }
{
    let mut numbers = Vec::new(alloc);
    append_ports(&mut numbers, ports, k, table)?;
    let clocks = keep_clocks(alloc, ports, k, table, numbers.as_slice())?;
    Ok(tell_two(clocks.as_slice()))
}

/// Those of some names of a model that are clock names, by the numbers of the names.
fn keep_clocks<'d>(
    alloc: Global,
    ports: &Ports<'d>,
    k: u32,
    table: &Table<'d>,
    numbers: &[u32],
) -> Result<Vec<&'d [u8]>, AllocError>
    requires { IsReached ports.now k }
    ensures { IfOk result (λ clocks. (names : List (List ℕ)) → AreNumbersOf (names_in table.now) names numbers.now → texts clocks.items ≡ filter (is_clock_of ports.now k) names) }
{
    let mut clocks = Vec::new(alloc);
    for number in numbers {
        keep_clock(&mut clocks, ports, k, table, *number)?;
    }
    Ok(clocks)
}

/// Appends the name of a number, where it is a clock name of a model.
fn keep_clock<'d>(
    clocks: &mut Vec<&'d [u8]>,
    ports: &Ports<'d>,
    k: u32,
    table: &Table<'d>,
    number: u32,
) -> Result<(), AllocError>
    requires { IsReached ports.now k }
    ensures { OnOk result ((name : List ℕ) → slice_get (names_in table.now) number ≡ Some name → texts clocks.new.items ≡ texts clocks.old.items ++ filter (is_clock_of ports.now k) (name ∷ [])) }
{
    let Some(name) = table.name_at(number as usize) else {
        return Ok(());
    };
    if ports.survey().is_clock(k, name) {
        clocks.push(name)?;
    }
    Ok(())
}

/// Tells of the first two of some names, where there are two.
fn tell_two<'d>(names: &[&'d [u8]]) -> Option<Told<'d>>
    ensures { shown_of result ≡ first_two (texts names.now) }
{
    if names.len() < 2 {
        return None;
    }
    Some(Told::TwoClocks {
        first: names[0],
        second: names[1],
    })
}

/// Tells of a root with instances that has a cell which is neither a buffer nor a constant.
pub fn find_root_logic<'d>(ports: &Ports<'d>) -> Option<Told<'d>>
    ensures { shown_of result ≡ root_logic ports.now }
{
    match ports.model(ports.survey().design().root) {
        Some(model) => find_root_logic_in(model),
        None => None,
    }
}

/// Tells of a model with instances that has a cell which is neither a buffer nor a constant.
fn find_root_logic_in<'d>(model: &'d Model) -> Option<Told<'d>>
    requires { AllByRecursion IsWellFormedCell model.now.cells }
    ensures { shown_of result ≡ logic_in model.now }
{
    if model.insts.is_empty() {
        return None;
    }
    match find_logic(model.cells.as_slice()) {
        Some(cell) => Some(Told::RootLogic {
            name: out_of(cell).as_slice(),
        }),
        None => None,
    }
}

/// The first cell that is neither a buffer nor a constant.
fn find_logic(cells: &[Cell]) -> Option<&Cell>
    requires { AllByRecursion IsWellFormedCell cells.now }
    ensures { option_map (λ (c : Bor Cell). c.now) result ≡ find (λ cell. not (is_buffer cell || is_constant cell)) cells.now }
{
    for cell in cells {
        if !is_wire(cell) {
            return Some(cell);
        }
    }
    None
}

/// Whether a cell is a buffer or a constant.
fn is_wire(cell: &Cell) -> bool
    requires { IsWellFormedCell cell.now }
    ensures { result ≡ (is_buffer cell.now || is_constant cell.now) }
{
    match cell {
        Cell::Names { inputs, cover, .. } => passes_on(cover) || inputs.len() == 0,
        Cell::Latch { .. } => false,
    }
}

/// Whether a cover has one input, whose value it takes.
pub fn passes_on(cover: &Cover) -> bool
    requires { IsCover cover.now }
    ensures { result ≡ passes_on cover.now }
{
    if cover.inputs != 1 {
        return false;
    }
    !eval(cover, 0) && eval(cover, 1)
}

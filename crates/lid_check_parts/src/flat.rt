//! Flat parts of networks.

ghost use Rattle.std.specs.Prelude.{◌≡◌, ◌+◌, ◌<◌, ◌≤◌, ◌^◌, length, map, IfOk};
ghost use Rattle.std.specs.List.{AllByRecursion, range_with_len};
ghost use Rattle.lid_check_digraph.specs.Graphs.{IsGraph, HasNoLoop, IsOrder};
ghost use Rattle.lid_check_elab.specs.Elaborations.{driver_reads};
ghost use Rattle.lid_check_parts.specs.Parts.{HasCover, IsNetworkPart, IsFlattened};
ghost use Rattle.lid_check_parts.specs.Inner.{inner_drivers};

use crate::cells::{Source, find_cells};
use crate::inner::find_reads;
use crate::part::PearlPart;
use lid_base::Items;
use lid_check_digraph::{Digraph, Found, ReadLists, find_order};
use lid_check_elab::ColumnDriver;
use lid_design::{Design, Flat};
use std::alloc::{AllocError, Global};

/// The inputs and outputs of a flat part.
#[derive(Drop)]
struct Ports {
    ins: Items<u32>,
    outs: Items<u32>,
}

/// So many numbers, from a first one on.
///
/// # Errors
/// Where there is no memory.
pub fn numbers_from(alloc: Global, first: u32, count: u32) -> Result<Items<u32>, AllocError>
    requires { first + count < 2 ^ 32 }
    ensures { IfOk result (λ numbers. numbers ≡ range_with_len first count) }
{
    let mut numbers = Vec::with_capacity(alloc, count as usize)?;
    for k in 0..count {
        numbers.push(first + k)?;
    }
    Ok(Items::from_vec(numbers))
}

/// The inputs and outputs of a part.
fn find_ports(alloc: Global, part: PearlPart) -> Result<Ports, AllocError>
    requires { part.inputs + part.outputs < 2 ^ 32 }
    ensures ins { IfOk result (λ ports. ports.ins ≡ range_with_len 0 part.inputs) }
    ensures outs { IfOk result (λ ports. ports.outs ≡ range_with_len part.inputs part.outputs) }
{
    let ins = numbers_from(alloc, 0, part.inputs)?;
    let outs = numbers_from(alloc, part.inputs, part.outputs)?;
    Ok(Ports { ins, outs })
}

/// An order of some nets, in which each stands after those that it reads in the same row.
fn order_of(alloc: Global, reads: &ReadLists) -> Result<Items<u32>, AllocError>
    requires graph { IsGraph reads.now }
    requires loops { HasNoLoop reads.now }
    ensures { IfOk result (IsOrder reads.now) }
{
    let graph = Digraph { reads };
    match find_order(alloc, &graph)? {
        Found::Order(order) => Ok(order),
        Found::Loop(_) => unreachable!(),
    }
}

/// A part of a network as a flat part: its nets are numbered from 0 on, its covers stand in an order in
/// which they can be run, and a connection is a cover that gives its one input. It takes time in the size
/// of the part, which is measured and not proved.
///
/// # Errors
/// Where there is no memory.
pub fn flatten(
    alloc: Global,
    design: &Design,
    drivers: &[ColumnDriver],
    part: PearlPart,
) -> Result<Flat, AllocError>
    requires part { IsNetworkPart drivers.now part }
    requires few { length drivers.now ≤ 1048576 }
    requires covers { AllByRecursion (HasCover design.now) drivers.now }
    requires loops { HasNoLoop (map driver_reads drivers.now) }
    ensures { IfOk result (IsFlattened design.now drivers.now part) }
{
    let reads = find_reads(alloc, drivers, part)?;
    let source = Source {
        design,
        drivers,
        part,
    };
    flat_of(alloc, &source, &reads)
}

/// The flat part of a part, by what its nets read.
fn flat_of(alloc: Global, source: &Source<'_>, reads: &ReadLists) -> Result<Flat, AllocError>
    requires part { IsNetworkPart source.now.drivers.now source.now.part }
    requires few { length source.now.drivers.now ≤ 1048576 }
    requires covers { AllByRecursion (HasCover source.now.design.now) source.now.drivers.now }
    requires loops { HasNoLoop (map driver_reads source.now.drivers.now) }
    requires reads { reads.now ≡ map driver_reads (inner_drivers source.now.drivers.now source.now.part) }
    ensures { IfOk result (IsFlattened source.now.design.now source.now.drivers.now source.now.part) }
{
    let order = order_of(alloc, reads)?;
    let cells = find_cells(alloc, source, reads, order.as_slice())?;
    let ports = find_ports(alloc, source.part)?;
    Ok(Flat {
        nets: source.part.nets,
        ins: ports.ins,
        outs: ports.outs,
        latches: Items::from_vec(cells.latches),
        covers: Items::from_vec(cells.covers),
    })
}

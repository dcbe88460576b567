//! The latches and covers of a flat part, in an order of its nets.

ghost use Rattle.std.specs.Prelude.{◌≡◌, ◌++◌, ◌<◌, ◌≤◌, [], length, map, IfOk, OnOk};
ghost use Rattle.lid_check_digraph.specs.Graphs.{IsOrder};
ghost use Rattle.lid_check_elab.specs.Covers.{cover_in};
ghost use Rattle.lid_check_elab.specs.Elaborations.{driver_reads, shown_driver};
ghost use Rattle.lid_check_parts.specs.Parts.{StaysIn, IsNetworkPart};
ghost use Rattle.lid_check_parts.specs.Inner.{buffer, counted_from, inner_driver, inner_drivers, latches_of, driver_covers, latches_in, network_covers};

use crate::part::PearlPart;
use lid_base::Items;
use lid_check_digraph::ReadLists;
use lid_check_elab::{ColumnDriver, cover_at};
use lid_cover::{Cover, Cube};
use lid_design::{Design, FlatCover, FlatLatch};
use std::alloc::{AllocError, Global};

/// A part of the network of a design.
#[derive(Clone, Copy)]
pub(crate) struct Source<'n> {
    pub(crate) design: &'n Design,
    pub(crate) drivers: &'n [ColumnDriver],
    pub(crate) part: PearlPart,
}

/// The latches and covers of a flat part.
#[derive(Drop)]
pub(crate) struct Cells {
    pub(crate) latches: Vec<FlatLatch>,
    pub(crate) covers: Vec<FlatCover>,
}

/// The cover that gives its one input.
///
/// # Errors
/// Where there is no memory.
pub fn buffer(alloc: Global) -> Result<Cover, AllocError>
    ensures { IfOk result (λ cover. cover ≡ buffer) }
{
    let mut cubes = Vec::new(alloc);
    cubes.push(Cube { care: 1, value: 1 })?;
    Ok(Cover {
        inputs: 1,
        on: true,
        cubes: Items::from_vec(cubes),
    })
}

/// A copy of the cover of a cell of a model; one without inputs and rows where it is no cover.
fn copy_cover(alloc: Global, design: &Design, model: u32, cell: u32) -> Result<Cover, AllocError>
    ensures { IfOk result (λ cover. cover ≡ cover_in design.now model cell) }
{
    match cover_at(design, model, cell) {
        Some(cover) => Ok(Cover {
            inputs: cover.inputs,
            on: cover.on,
            cubes: Items::from_vec(cover.cubes.as_slice().to_vec(alloc)?),
        }),
        None => Ok(Cover {
            inputs: 0,
            on: false,
            cubes: Items::from_vec(Vec::new(alloc)),
        }),
    }
}

/// The cover of a cell of a model, between nets.
fn cell_cover(
    alloc: Global,
    design: &Design,
    model: u32,
    cell: u32,
    ins: Items<u32>,
    out: u32,
) -> Result<FlatCover, AllocError>
    ensures { IfOk result (λ c. c ≡ record { ins = ins; out = out; cover = cover_in design.now model cell }) }
{
    let cover = copy_cover(alloc, design, model, cell)?;
    Ok(FlatCover { ins, out, cover })
}

/// A buffer between nets.
fn buffer_of(alloc: Global, ins: Items<u32>, out: u32) -> Result<FlatCover, AllocError>
    ensures { IfOk result (λ c. c ≡ record { ins = ins; out = out; cover = buffer }) }
{
    let cover = buffer(alloc)?;
    Ok(FlatCover { ins, out, cover })
}

/// Adds what gives a net its bit, by its driver and what it reads.
fn push_driven(
    alloc: Global,
    cells: &mut Cells,
    source: &Source<'_>,
    net: u32,
    ins: Items<u32>,
    driver: &ColumnDriver,
) -> Result<(), AllocError>
    requires stays { StaysIn source.now.part driver.now }
    requires ins { ins ≡ driver_reads (counted_from source.now.part.start driver.now) }
    ensures latches { OnOk result (cells.new.latches.items ≡ cells.old.latches.items
        ++ latches_of net (shown_driver source.now.design.now (counted_from source.now.part.start driver.now))) }
    ensures covers { OnOk result (cells.new.covers.items ≡ cells.old.covers.items
        ++ driver_covers net (shown_driver source.now.design.now (counted_from source.now.part.start driver.now))) }
{
    match driver {
        ColumnDriver::Input(_) => unreachable!(),
        ColumnDriver::Latch { first, input } => cells.latches.push(FlatLatch {
            input: *input - source.part.start,
            out: net,
            init: *first,
        })?,
        ColumnDriver::Cover { model, cell, .. } => cells
            .covers
            .push(cell_cover(alloc, source.design, *model, *cell, ins, net)?)?,
        ColumnDriver::Connection(_) => cells.covers.push(buffer_of(alloc, ins, net)?)?,
    }
    Ok(())
}

/// Adds what gives a net of a part its bit, by what it reads.
fn push_cell(
    alloc: Global,
    cells: &mut Cells,
    source: &Source<'_>,
    net: u32,
    ins: Items<u32>,
) -> Result<(), AllocError>
    requires part { IsNetworkPart source.now.drivers.now source.now.part }
    requires few { length source.now.drivers.now ≤ 1048576 }
    requires there { net < source.now.part.nets }
    requires ins { ins ≡ driver_reads (inner_driver source.now.drivers.now source.now.part net) }
    ensures latches { OnOk result (cells.new.latches.items ≡ cells.old.latches.items
        ++ latches_of net (shown_driver source.now.design.now (inner_driver source.now.drivers.now source.now.part net))) }
    ensures covers { OnOk result (cells.new.covers.items ≡ cells.old.covers.items
        ++ driver_covers net (shown_driver source.now.design.now (inner_driver source.now.drivers.now source.now.part net))) }
{
    let part = source.part;
    if net < part.inputs {
        return Ok(());
    }
    let driver = &source.drivers[(part.start + net) as usize];
    push_driven(alloc, cells, source, net, ins, driver)
}

/// The latches and covers of the nets of a part, in an order of them, by what each reads.
///
/// # Errors
/// Where there is no memory.
pub(crate) fn find_cells(
    alloc: Global,
    source: &Source<'_>,
    reads: &ReadLists,
    order: &[u32],
) -> Result<Cells, AllocError>
    requires part { IsNetworkPart source.now.drivers.now source.now.part }
    requires few { length source.now.drivers.now ≤ 1048576 }
    requires reads { reads.now ≡ map driver_reads (inner_drivers source.now.drivers.now source.now.part) }
    requires order { IsOrder (map driver_reads (inner_drivers source.now.drivers.now source.now.part)) order.now }
    ensures latches { IfOk result (λ cells. cells.latches.items
        ≡ latches_in source.now.design.now (inner_drivers source.now.drivers.now source.now.part) order.now) }
    ensures covers { IfOk result (λ cells. cells.covers.items
        ≡ network_covers source.now.design.now (inner_drivers source.now.drivers.now source.now.part) order.now) }
{
    let mut cells = no_cells(alloc, source)?;
    push_cells(alloc, &mut cells, source, reads, order)?;
    Ok(cells)
}

/// Nothing yet, with room for the latches and covers of a part.
fn no_cells(alloc: Global, source: &Source<'_>) -> Result<Cells, AllocError>
    ensures latches { IfOk result (λ cells. cells.latches.items ≡ []) }
    ensures covers { IfOk result (λ cells. cells.covers.items ≡ []) }
{
    let held = count_latches(source);
    let driven = source.part.nets.saturating_sub(source.part.inputs) as usize;
    let latches = Vec::with_capacity(alloc, held)?;
    let covers = Vec::with_capacity(alloc, driven.saturating_sub(held))?;
    Ok(Cells { latches, covers })
}

/// How many latches a part has, for the room that they take. Nothing is promised of it.
fn count_latches(source: &Source<'_>) -> usize {
    let mut count: usize = 0;
    for k in 0..source.part.nets {
        let place = source.part.start.wrapping_add(k) as usize;
        if let Some(ColumnDriver::Latch { .. }) = source.drivers.get(place) {
            count = count.wrapping_add(1);
        }
    }
    count
}

/// Adds what gives the nets of a part their bits, in an order of them, by what each reads.
fn push_cells(
    alloc: Global,
    cells: &mut Cells,
    source: &Source<'_>,
    reads: &ReadLists,
    order: &[u32],
) -> Result<(), AllocError>
    requires part { IsNetworkPart source.now.drivers.now source.now.part }
    requires few { length source.now.drivers.now ≤ 1048576 }
    requires reads { reads.now ≡ map driver_reads (inner_drivers source.now.drivers.now source.now.part) }
    requires order { IsOrder (map driver_reads (inner_drivers source.now.drivers.now source.now.part)) order.now }
    ensures latches { OnOk result (cells.new.latches.items ≡ cells.old.latches.items
        ++ latches_in source.now.design.now (inner_drivers source.now.drivers.now source.now.part) order.now) }
    ensures covers { OnOk result (cells.new.covers.items ≡ cells.old.covers.items
        ++ network_covers source.now.design.now (inner_drivers source.now.drivers.now source.now.part) order.now) }
{
    for net in order {
        let ins = reads.list(*net as usize).to_vec(alloc)?;
        push_cell(alloc, cells, source, *net, Items::from_vec(ins))?;
    }
    Ok(())
}

//! Networks laid out for running: inputs, latches, and a program of the covers, in an order in which each stands
//! after all that it reads in the same row.

ghost use Rattle.std.specs.Prelude.{◌≡◌, ◌<◌, ◌++◌, [], length, map, IfOk, OnOk};
ghost use Rattle.std.specs.List.{AllByRecursion};
ghost use Rattle.lid_design.specs.Feeds.{read_now};
ghost use Rattle.lid_design.specs.Flat.{latch_out, latch_init};
ghost use Rattle.lid_check_digraph.specs.Graphs.{IsOrder};
ghost use Rattle.lid_check_elab.specs.Covers.{no_cover};
ghost use Rattle.lid_strict_engine.specs.Programs.{program_covers, IsProgram};
ghost use Rattle.lid_strict.specs.Networks.{reads_of};
ghost use Rattle.lid_strict.specs.Stems.{stem_at, stem_covers, latch_stem, unbuffered_driver, AreStems};
ghost use Rattle.lid_check_parts.specs.Parts.{HasCover};
ghost use Rattle.lid_check_parts.specs.Inner.{latches_of};
ghost use Rattle.lid_strict.specs.Layouts.{input_nets, input_places, IsLaidOut};

use crate::stems::{is_buffer, stem_of, write_stems};
use lid_base::Items;
use lid_check_elab::{ColumnDriver, cover_at};
use lid_cover::Cover;
use lid_design::Design;
use lid_strict_engine::Program;
use std::alloc::{AllocError, Global};

/// What gives each number of a network its bit.
#[derive(Drop)]
pub struct Layout {
    /// The covers, which read stems. A connection has no step, nor has a buffer.
    pub program: Program,
    /// The numbers of data inputs of the root.
    pub ins: Vec<u32>,
    /// The place of each of them among the inputs of the root.
    pub places: Vec<u32>,
    /// The number of each latch, and beside it the stem of what it reads and the bit that it begins with.
    pub held: Vec<u32>,
    pub taken: Vec<u32>,
    pub first: Vec<bool>,
}

/// What covers are pushed with.
#[derive(Drop)]
struct Scratch {
    /// The constant 0, where there is no cover.
    none: Cover,
    /// The stems that a cover reads.
    reads: Vec<u32>,
}

/// Lays out the drivers of some numbers, in their order, by their stems.
pub fn lay_out(
    alloc: Global,
    design: &Design,
    drivers: &[ColumnDriver],
    order: &[u32],
    stems: &[u32],
) -> Result<Layout, AllocError>
    requires ordered { IsOrder (reads_of (map (unbuffered_driver design.now) drivers.now)) order.now }
    requires covers { AllByRecursion (HasCover design.now) drivers.now }
    requires stems { AreStems (map (unbuffered_driver design.now) drivers.now) order.now stems.now }
    ensures { IfOk result (IsLaidOut (map (unbuffered_driver design.now) drivers.now) stems.now order.now) }
{
    let mut scratch = no_scratch(alloc);
    let mut layout = no_layout(alloc, drivers.len());
    for number in order {
        let driver = &drivers[*number as usize];
        push_driver(&mut layout, &mut scratch, stems, design, *number, driver)?;
    }
    Ok(layout)
}

/// A layout of nothing, for so many numbers.
fn no_layout(alloc: Global, size: usize) -> Layout
    ensures program { IsProgram result.program }
    ensures nets { result.program.nets ≡ size }
    ensures covers { program_covers result.program ≡ [] }
    ensures ins { result.ins.items ≡ [] }
    ensures places { result.places.items ≡ [] }
    ensures held { result.held.items ≡ [] }
    ensures taken { result.taken.items ≡ [] }
    ensures first { result.first.items ≡ [] }
{
    Layout {
        program: Program::new(alloc, size),
        ins: Vec::new(alloc),
        places: Vec::new(alloc),
        held: Vec::new(alloc),
        taken: Vec::new(alloc),
        first: Vec::new(alloc),
    }
}

/// No reads, and the cover that no model has.
fn no_scratch(alloc: Global) -> Scratch
    ensures { result.none ≡ no_cover }
{
    Scratch {
        none: Cover {
            inputs: 0,
            on: false,
            cubes: Items::from_vec(Vec::new(alloc)),
        },
        reads: Vec::new(alloc),
    }
}

/// Adds what gives a number its bit.
fn push_driver(
    layout: &mut Layout,
    scratch: &mut Scratch,
    stems: &[u32],
    design: &Design,
    number: u32,
    driver: &ColumnDriver,
) -> Result<(), AllocError>
    requires none { scratch.old.none ≡ no_cover }
    requires program { IsProgram layout.old.program }
    requires number { number < layout.old.program.nets }
    requires reads { AllByRecursion (λ k. k < layout.old.program.nets) (map (stem_at stems.now) (read_now (unbuffered_driver design.now driver.now))) }
    requires cover { HasCover design.now driver.now }
    ensures none { OnOk result (scratch.new.none ≡ no_cover) }
    ensures program { OnOk result (IsProgram layout.new.program) }
    ensures nets { OnOk result (layout.new.program.nets ≡ layout.old.program.nets) }
    ensures covers { OnOk result (program_covers layout.new.program ≡ program_covers layout.old.program
        ++ stem_covers stems.now number (unbuffered_driver design.now driver.now)) }
    ensures ins { OnOk result (layout.new.ins.items ≡ layout.old.ins.items ++ input_nets number (unbuffered_driver design.now driver.now)) }
    ensures places { OnOk result (layout.new.places.items ≡ layout.old.places.items ++ input_places (unbuffered_driver design.now driver.now)) }
    ensures held { OnOk result (layout.new.held.items ≡ layout.old.held.items ++ map latch_out (latches_of number (unbuffered_driver design.now driver.now))) }
    ensures taken { OnOk result (layout.new.taken.items ≡ layout.old.taken.items
        ++ map (latch_stem stems.now) (latches_of number (unbuffered_driver design.now driver.now))) }
    ensures first { OnOk result (layout.new.first.items ≡ layout.old.first.items ++ map latch_init (latches_of number (unbuffered_driver design.now driver.now))) }
{
    match driver {
        ColumnDriver::Input(place) => {
            layout.ins.push(number)?;
            layout.places.push(*place)?;
        }
        ColumnDriver::Latch { first, input } => {
            layout.held.push(number)?;
            layout.taken.push(stem_of(stems, *input))?;
            layout.first.push(*first)?;
        }
        ColumnDriver::Cover {
            model,
            cell,
            inputs,
        } => {
            if !is_buffer(design, *model, *cell) {
                write_stems(stems, inputs.as_slice(), &mut scratch.reads)?;
                let cover = cover_at(design, *model, *cell).unwrap_or(&scratch.none);
                layout
                    .program
                    .push(scratch.reads.as_slice(), number, cover)?;
            }
        }
        ColumnDriver::Connection(_) => {}
    }
    Ok(())
}

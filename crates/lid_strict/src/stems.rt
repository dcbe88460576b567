//! Stems: the numbers from which numbers have their bits, past all connections and buffers. A run has no step for
//! either.

ghost use Rattle.std.specs.Prelude.{◌≡◌, map, IfOk, OnOk};
ghost use Rattle.std.specs.List.{AllByRecursion};
ghost use Rattle.lid_cover.specs.Cover.{IsCover};
ghost use Rattle.lid_check_digraph.specs.Graphs.{IsOrder};
ghost use Rattle.lid_check_elab.specs.Covers.{cover_in};
ghost use Rattle.lid_check_parts.specs.Parts.{HasCover};
ghost use Rattle.lid_check_rules.specs.Buffers.{passes_on};
ghost use Rattle.lid_strict.specs.Networks.{reads_of};
ghost use Rattle.lid_strict.specs.Stems.{stem_at, stem_by, unbuffered_driver, AreStems};

use lid_check_elab::{ColumnDriver, cover_at};
use lid_check_rules::passes_on;
use lid_design::Design;
use std::alloc::{AllocError, Global};

/// The stem of a number.
pub fn stem_of(stems: &[u32], number: u32) -> u32
    ensures { result ≡ stem_at stems.now number }
{
    stems.get(number as usize).copied().unwrap_or(0)
}

/// Writes the stems of some numbers over what a list held.
pub fn write_stems(stems: &[u32], numbers: &[u32], into: &mut Vec<u32>) -> Result<(), AllocError>
    ensures { OnOk result (into.new.items ≡ map (stem_at stems.now) numbers.now) }
{
    into.clear();
    for number in numbers {
        into.push(stem_of(stems, *number))?;
    }
    Ok(())
}

/// Whether a cell of a model is a buffer: a cover of one input, whose value it takes.
pub fn is_buffer(design: &Design, model: u32, cell: u32) -> bool
    requires { IsCover (cover_in design.now model cell) }
    ensures { result ≡ passes_on (cover_in design.now model cell) }
{
    match cover_at(design, model, cell) {
        Some(cover) => passes_on(cover),
        None => false,
    }
}

/// The stem of a number by its driver, where that of what it connects to, or reads as a buffer, is known.
fn find_stem(stems: &[u32], design: &Design, number: u32, driver: &ColumnDriver) -> u32
    requires { HasCover design.now driver.now }
    ensures { result ≡ stem_by stems.now number (unbuffered_driver design.now driver.now) }
{
    match driver {
        ColumnDriver::Input(_) | ColumnDriver::Latch { .. } => number,
        ColumnDriver::Cover {
            model,
            cell,
            inputs,
        } => {
            if is_buffer(design, *model, *cell) {
                stem_of(stems, inputs.as_slice()[0])
            } else {
                number
            }
        }
        ColumnDriver::Connection(other) => stem_of(stems, *other),
    }
}

/// The stems of the numbers of an order.
pub fn stems_of(
    alloc: Global,
    design: &Design,
    drivers: &[ColumnDriver],
    order: &[u32],
) -> Result<Vec<u32>, AllocError>
    requires ordered { IsOrder (reads_of (map (unbuffered_driver design.now) drivers.now)) order.now }
    requires covers { AllByRecursion (HasCover design.now) drivers.now }
    ensures { IfOk result (λ stems. AreStems (map (unbuffered_driver design.now) drivers.now) order.now stems.items) }
{
    let mut stems = Vec::from_elem(alloc, 0u32, drivers.len())?;
    for number in order {
        let driver = &drivers[*number as usize];
        let stem = find_stem(stems.as_slice(), design, *number, driver);
        stems[*number as usize] = stem;
    }
    Ok(stems)
}

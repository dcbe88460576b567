//! What the nets of a part read, with the numbers that they read counted from its first.

ghost use Rattle.std.specs.Prelude.{◌≡◌, ◌+◌, ◌-◌, ◌<◌, ◌≤◌, ◌++◌, ◌∷◌, [], length, map, IfOk, OnOk};
ghost use Rattle.std.specs.List.{AllByRecursion};
ghost use Rattle.lid_check_elab.specs.Elaborations.{driver_reads};
ghost use Rattle.lid_check_parts.specs.Parts.{IsIn, StaysIn, IsNetworkPart};
ghost use Rattle.lid_check_parts.specs.Inner.{counted_from, inner_driver, inner_drivers};

use crate::part::PearlPart;
use lid_check_digraph::ReadLists;
use lid_check_elab::ColumnDriver;
use std::alloc::{AllocError, Global};

/// Appends a list of some numbers of a part, counted from its first.
fn push_counted(all: &mut ReadLists, part: PearlPart, numbers: &[u32]) -> Result<(), AllocError>
    requires { AllByRecursion (IsIn part) numbers.now }
    ensures { OnOk result (all.new ≡ all.old ++ map (λ a. a - part.start) numbers.now ∷ []) }
{
    all.begin()?;
    for number in numbers {
        all.add(*number - part.start)?;
    }
    Ok(())
}

/// Appends what a driver that reads numbers of a part alone reads in the same row, counted from the
/// part's first.
fn push_reads(all: &mut ReadLists, part: PearlPart, driver: &ColumnDriver) -> Result<(), AllocError>
    requires { StaysIn part driver.now }
    ensures { OnOk result (all.new ≡ all.old ++ driver_reads (counted_from part.start driver.now) ∷ []) }
{
    match driver {
        ColumnDriver::Input(_) => unreachable!(),
        ColumnDriver::Latch { .. } => all.begin(),
        ColumnDriver::Cover { inputs, .. } => push_counted(all, part, inputs.as_slice()),
        ColumnDriver::Connection(other) => all.push(&[*other - part.start]),
    }
}

/// Appends what a net of a part reads in the same row.
fn push_reads_of(
    all: &mut ReadLists,
    drivers: &[ColumnDriver],
    part: PearlPart,
    k: u32,
) -> Result<(), AllocError>
    requires part { IsNetworkPart drivers.now part }
    requires few { length drivers.now ≤ 1048576 }
    requires there { k < part.nets }
    ensures { OnOk result (all.new ≡ all.old ++ driver_reads (inner_driver drivers.now part k) ∷ []) }
{
    if k < part.inputs {
        return all.begin();
    }
    push_reads(all, part, &drivers[(part.start + k) as usize])
}

/// What the nets of a part read in the same row, by their numbers from 0 on.
///
/// # Errors
/// Where there is no memory.
pub(crate) fn find_reads(
    alloc: Global,
    drivers: &[ColumnDriver],
    part: PearlPart,
) -> Result<ReadLists, AllocError>
    requires part { IsNetworkPart drivers.now part }
    requires few { length drivers.now ≤ 1048576 }
    ensures { IfOk result (λ reads. reads ≡ map driver_reads (inner_drivers drivers.now part)) }
{
    let mut all = ReadLists::with_capacity(alloc, part.nets as usize)?;
    for k in 0..part.nets {
        push_reads_of(&mut all, drivers, part, k)?;
    }
    Ok(all)
}

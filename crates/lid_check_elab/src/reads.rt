//! What each column reads in the same row.

ghost use Rattle.std.specs.Prelude.{◌≡◌, ◌++◌, ◌∷◌, [], map, IfOk, OnOk};
ghost use Rattle.lid_check_elab.specs.Elaborations.{driver_reads};

use crate::driver::ColumnDriver;
use lid_check_digraph::ReadLists;
use std::alloc::{AllocError, Global};

/// Appends the numbers of the columns whose bits of the same row a driver reads.
fn push_reads(all: &mut ReadLists, driver: &ColumnDriver) -> Result<(), AllocError>
    ensures { OnOk result (all.new ≡ all.old ++ driver_reads driver.now ∷ []) }
{
    match driver {
        ColumnDriver::Cover { inputs, .. } => all.push(inputs.as_slice()),
        ColumnDriver::Connection(other) => all.push(&[*other]),
        ColumnDriver::Input(_) => all.begin(),
        ColumnDriver::Latch { .. } => all.begin(),
    }
}

/// The graph of the columns by their numbers: what each reads in the same row.
///
/// # Errors
/// Where there is no memory.
pub fn find_reads(alloc: Global, drivers: &[ColumnDriver]) -> Result<ReadLists, AllocError>
    ensures { IfOk result (λ reads. reads ≡ map driver_reads drivers.now) }
{
    let mut all = ReadLists::with_capacity(alloc, drivers.len())?;
    for driver in drivers {
        push_reads(&mut all, driver)?;
    }
    Ok(all)
}

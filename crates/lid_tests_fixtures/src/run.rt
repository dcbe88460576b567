//! What a run is made of.

ghost use Rattle.std.specs.Prelude.{IfSome};
ghost use Rattle.lid_tests_fixtures.specs.Runs.{IsFittingRun};

use crate::placing::{SystemAndStations, placed_of};
use crate::rows::{are_rows, rows_of, width_of};
use lid_stations::Placement;
use lid_system::System;
use lid_texts::Rows;
use std::alloc::Global;

/// A system, its stations, and rows for its source.
#[derive(Drop)]
pub struct SampleRun {
    /// The system.
    pub system: System,
    /// Its stations.
    pub placement: Placement,
    /// The rows.
    pub rows: Rows,
}

/// The run of a netlist with its stations over some rows, each of whose columns has the bit of a letter. None where one
/// of the texts is refused, where there are more than a million rows, and for want of memory.
pub fn run_of(alloc: Global, netlist: &[u8], stations: &[u8], letters: &[u8]) -> Option<SampleRun>
    ensures { IfSome result (λ run. IsFittingRun run.system run.placement run.rows.bits) }
{
    let Some(SystemAndStations { system, placement }) = placed_of(alloc, netlist, stations) else {
        return None;
    };
    let Some(rows) = rows_of(alloc, letters, width_of(&system)) else {
        return None;
    };
    if !are_rows(&system, rows.bits.as_slice()) {
        return None;
    }
    Some(SampleRun {
        system,
        placement,
        rows,
    })
}

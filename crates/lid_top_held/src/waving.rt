//! `wave`: the trace of the clocked run as a value change dump.

ghost use Rattle.std.specs.Prelude.{◌≤◌};
ghost use Rattle.lid_top_script.specs.Scripts.{waving_script};
ghost use Rattle.lid_top_script.specs.Whole.{RunsAnywhere};
ghost use Rattle.lid_stations.specs.Placements.{links_of};

use crate::dumping::dump_text;
use crate::run::Fed;
use lid_top_script::{Stop, judge_trace};
use std::alloc::Global;

/// What `wave` writes once the rows are read: the dump of a trace of 1 to 1,048,576 cycles.
pub(crate) fn waved_text<'a>(alloc: Global, fed: &Fed<'_>, cycles: u64) -> Result<Vec<u8>, Stop<'a>>
    requires some { 1 ≤ cycles }
    requires most { cycles ≤ 1048576 }
    ensures { RunsAnywhere (waving_script fed.now.wrapped.now.design (links_of fed.now.wrapped.now.system)
        fed.now.wrapped.now.placement cycles fed.now.rows.now.rows) result }
{
    match judge_trace(fed.wrapped, &Some(cycles)) {
        Ok(()) => match dump_text(alloc, fed, cycles) {
            Ok(text) => Ok(text),
            Err(_) => Err(Stop::Memory),
        },
        Err(stop) => Err(stop),
    }
}

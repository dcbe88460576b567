//! The start of a run.

ghost use Rattle.std.specs.Prelude.{◌≡◌, ℕ, ◌≤◌, min, length, Some, slice_get, IfOk};
ghost use Rattle.lid_system.specs.Systems.{IsWellFormed};
ghost use Rattle.lid_stations.specs.Placements.{Fits};
ghost use Rattle.lid_clock.specs.declared.station.ClockStation.{ClockStation};
ghost use Rattle.lid_clock.specs.Lives.{Life, StartsSo};
ghost use Rattle.lid_clock.specs.Ran.{Ran, lent, IsFirstRow};
ghost use Rattle.lid_clock.specs.Starts.{CanGain, StationBegins, AllBegin};

use crate::actor::ClockActor;
use crate::building::new_actors;
use crate::joining::lay_stations;
use crate::readying::make_all_ready;
use crate::rules::runs_go_by_rules;
use crate::station::ClockStation;
use crate::stream::ClockStream;
use lid_stations::{Placed, Placement};
use lid_system::System;
use std::alloc::{AllocError, Global};

impl ClockStation {
    /// Gains the first token of its filler, where there are rows and that is a node.
    fn begin(&mut self, actors: &[ClockActor], nodes: u32, some: bool)
        requires { CanGain actors.now self.old }
        ensures { StationBegins some nodes actors.now self.old self.new }
    {
        let filler = &actors[self.filler as usize];
        if some && self.filler < nodes {
            self.accept(filler.tokens[self.slot as usize]);
        }
    }
}

/// Gives all stations the tokens with which they start.
fn begin_all(stations: &mut [ClockStation], actors: &[ClockActor], nodes: u32, some: bool)
    requires { (i : ℕ) (x : ClockStation) → slice_get stations.old i ≡ Some x → CanGain actors.now x }
    ensures { AllBegin some nodes actors.now stations.old stations.new }
{
    for i in 0..stations.len() {
        stations[i].begin(actors, nodes, some);
    }
}

impl ClockStream {
    /// Starts a run of so many rows, of which the first is given, where there are rows. It has the width of
    /// the source. There are at most a million rows.
    ///
    /// # Errors
    /// Where there is no memory.
    pub fn start(
        alloc: Global,
        system: &System,
        placement: &Placement,
        rows: u64,
        first: Option<&[bool]>,
    ) -> Result<ClockStream, AllocError>
        requires system { IsWellFormed system.now }
        requires fits { Fits system.now placement.now }
        requires few { rows ≤ 1000000 }
        requires first { IsFirstRow system.now rows (lent first) }
        ensures { IfOk result (λ stream. (l : Life) → StartsSo l system.now placement.now rows (lent first.entry) → Ran l 0 (min 1 rows) stream) }
    {
        runs_go_by_rules();
        let some = 0 < rows;
        let nodes = system.nodes.len() as u32;
        let placed = Placed { system, placement };
        let mut actors = new_actors(alloc, &placed, rows, first)?;
        let mut stations = Vec::new(alloc);
        lay_stations(alloc, &placed, actors.as_mut_slice(), &mut stations)?;
        make_all_ready(alloc, actors.as_mut_slice(), some)?;
        begin_all(stations.as_mut_slice(), actors.as_slice(), nodes, some);
        Ok(ClockStream {
            actors,
            stations,
            rows,
            given: rows.min(1),
            sink: nodes - 1,
        })
    }
}

//! A run that was built is laid flat.

ghost use Rattle.std.specs.Prelude.{◌≡◌, ℕ, ◌+◌, ◌^◌, ◌<◌, ◌≤◌, min, ◌++◌, ◌∷◌, [], length, Some, slice_get, IfOk, OnOk};
ghost use Rattle.lid_clock.specs.declared.actor.ClockActor.{ClockActor};
ghost use Rattle.lid_clock.specs.Lives.{Life, StartsSo};
ghost use Rattle.lid_clock.specs.Ran.{Ran, lent, IsFirstRow};
ghost use Rattle.lid_clock_flat.specs.Layings.{AreEmptied, IsLaidLast, AreFlattened, DrainSome, AreMoversOf};
ghost use Rattle.lid_clock_flat.specs.Runs.{FlatRan, IsJustStarted, IsFlatRunOf};

use crate::mover::FlatMover;
use crate::run::FlatRun;
use crate::station::FlatStation;
use crate::stations::FlatStations;
use lid_clock::{ClockActor, ClockStation, ClockStream, runs_go_by_rules};
use lid_stations::Placed;
use lid_system::systems_have_one_table;
use std::alloc::{AllocError, Global};

/// Lays one more station.
fn lay(stations: &mut FlatStations, station: &ClockStation) -> Result<(), AllocError>
    requires fresh { station.now.taken ≡ 0 }
    requires few { length stations.old.places.items ≤ 1048576 }
    ensures { OnOk result (IsLaidLast station.now stations.old stations.new) }
{
    let ring = station.ring();
    let base = stations.places.len() as u32;
    stations.places.extend_from_slice(ring)?;
    stations.all.push(FlatStation {
        filler: station.filled_by(),
        drainer: station.drained_by(),
        base,
        cap: ring.len() as u32,
        head: 0,
        held: station.put_count() as u32,
    })?;
    Ok(())
}

/// Lays all stations.
fn lay_all(alloc: Global, stations: &[ClockStation]) -> Result<FlatStations, AllocError>
    requires fresh { AreEmptied stations.now }
    requires few { length stations.now ≤ 65536 }
    ensures { IfOk result (AreFlattened stations.now (length stations.now)) }
{
    let mut flat = FlatStations {
        all: Vec::new(alloc),
        places: Vec::new(alloc),
    };
    for s in 0..stations.len() {
        lay(&mut flat, &stations[s])?;
    }
    Ok(flat)
}

/// The movers, which are the actors from this number on.
fn movers_of(
    alloc: Global,
    actors: &[ClockActor],
    first: usize,
) -> Result<Vec<FlatMover>, AllocError>
    requires { DrainSome first actors.now }
    ensures { IfOk result (λ movers. AreMoversOf first (length actors.now) actors.now movers.items) }
{
    let mut movers = Vec::new(alloc);
    for v in first..actors.len() {
        movers.push(FlatMover {
            station: actors[v].drained()[0],
            fired: 0,
        })?;
    }
    Ok(movers)
}

impl FlatRun {
    /// Of these actors and stations.
    fn with(
        alloc: Global,
        actors: Vec<ClockActor>,
        stations: FlatStations,
        count: usize,
        rows: u64,
    ) -> Result<FlatRun, AllocError>
        requires { DrainSome count actors.items }
        ensures { IfOk result (IsFlatRunOf actors.items stations count rows) }
    {
        let movers = movers_of(alloc, actors.as_slice(), count)?;
        let went = Vec::from_elem(alloc, false, actors.len())?;
        let awake = Vec::from_elem(alloc, true, actors.len())?;
        let mut nodes = actors;
        nodes.truncate(count);
        Ok(FlatRun {
            nodes,
            movers,
            stations,
            went,
            awake,
            rows,
            given: rows.min(1),
        })
    }

    /// A run that was built, and has made no cycle, laid flat.
    fn of(
        alloc: Global,
        stream: ClockStream,
        count: usize,
        rows: u64,
    ) -> Result<FlatRun, AllocError>
        requires { IsJustStarted stream count }
        ensures { IfOk result (λ run. (l : Life) (g : ℕ) → Ran l 0 g stream → count ≡ length l.setup.system.nodes → rows ≡ length l.setup.input
            → g ≡ min 1 rows → FlatRan l 0 g run) }
    {
        runs_go_by_rules();
        let stations = lay_all(alloc, stream.stations.as_slice())?;
        FlatRun::with(alloc, stream.actors, stations, count, rows)
    }

    /// Starts a run of so many rows, of which the first is given, where there are rows. It has the width of
    /// the source. There are at most a million rows.
    ///
    /// # Errors
    /// Where there is no memory.
    pub(crate) fn start(
        alloc: Global,
        placed: &Placed<'_>,
        rows: u64,
        first: Option<&[bool]>,
    ) -> Result<FlatRun, AllocError>
        requires few { rows ≤ 1000000 }
        requires first { IsFirstRow placed.now.system rows (lent first) }
        ensures { IfOk result (λ run. (l : Life) → StartsSo l placed.now.system placed.now.placement rows (lent first.entry)
            → FlatRan l 0 (min 1 rows) run) }
    {
        systems_have_one_table();
        let stream = ClockStream::start(alloc, placed.system, placed.placement, rows, first)?;
        FlatRun::of(alloc, stream, placed.system.nodes.len(), rows)
    }
}

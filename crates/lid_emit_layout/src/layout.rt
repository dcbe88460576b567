//! All that the cells of a wrapped system are made from.

ghost use Rattle.std.specs.Prelude.{IfOk, length, ◌≡◌, ◌<◌, ◌+◌, ℕ, slice_get, Some};
ghost use Rattle.lid_emit_system.specs.Nets.{NetWires, AreNetWires};
ghost use Rattle.lid_emit_system.specs.Wrapping.{input_count, sink_reads};
ghost use Rattle.lid_emit_cells.specs.declared.shell.Shell.{Shell};
ghost use Rattle.lid_emit_cells.specs.Matches.{IsAllOf, AreAllSmall, IsWhole};
ghost use Rattle.lid_emit_shells.specs.Shells.{nets_of};
ghost use Rattle.lid_emit_layout.specs.Plans.{plan_of};
ghost use Rattle.lid_emit_layout.specs.Stations.{AreStationsOf};
ghost use Rattle.lid_emit_layout.specs.Frames.{IsFrame};

use crate::actors::make_actors;
use crate::outer::make_outer;
use crate::stations::make_stations;
use lid_base::Items;
use lid_emit_cells::{ActorStations, All, Outer, Station};
use lid_emit_shells::Shells;
use lid_stations::Placed;
use std::alloc::{AllocError, Global};

/// All parts of a wrapped system but its shells.
#[derive(Drop)]
struct Frame {
    outer: Outer,
    stations: Items<Station>,
    actors: Items<ActorStations>,
}

/// The frame of a system with these stations.
fn make_frame(
    alloc: Global,
    placed: &Placed<'_>,
    stations: Vec<Station>,
) -> Result<Frame, AllocError>
    requires stations { (n : NetWires) × AreStationsOf (plan_of placed.now n) stations.items }
    requires inputs { input_count placed.now.system < 32768 }
    requires outputs { length (sink_reads placed.now.system) < 32768 }
    ensures { IfOk result (λ frame. (n : NetWires) → AreStationsOf (plan_of placed.now n) stations.items
        → IsFrame (plan_of placed.now n) frame) }
{
    let actors = make_actors(alloc, placed, stations.as_slice())?;
    let outer = make_outer(alloc, placed, actors.as_slice())?;
    Ok(Frame {
        outer,
        stations: Items::from_vec(stations),
        actors: Items::from_vec(actors),
    })
}

/// The wrapped system of a system, the stations that fit it, and its shells.
///
/// # Errors
/// Where there is no memory.
pub fn lay_out(alloc: Global, placed: &Placed<'_>, shells: Shells) -> Result<All, AllocError>
    requires count { length placed.now.system.nodes ≡ length shells.shells + 2 }
    requires whole { (i : ℕ) (shell : Shell) → slice_get shells.shells i ≡ Some shell → IsWhole shell }
    requires nets { AreNetWires placed.now.system placed.now.placement (nets_of shells) }
    requires inputs { input_count placed.now.system < 32768 }
    requires outputs { length (sink_reads placed.now.system) < 32768 }
    ensures all { IfOk result (IsAllOf (plan_of placed.now (nets_of shells))) }
    ensures sound { IfOk result AreAllSmall }
{
    let _ = &placed.system;
    let stations = make_stations(alloc, placed, &shells)?;
    let Frame {
        outer,
        stations,
        actors,
    } = make_frame(alloc, placed, stations)?;
    let Shells { shells, .. } = shells;
    Ok(All {
        outer,
        stations,
        actors,
        shells,
    })
}

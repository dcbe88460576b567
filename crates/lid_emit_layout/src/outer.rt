//! The outside of a wrapped system.

ghost use Rattle.std.specs.Prelude.{◌≡◌, ◌≤◌, ◌<◌, ◌^◌, ◌+◌, ℕ, IfOk, length, map, slice_get, Some};
ghost use Rattle.lid_system.specs.Systems.{IsWellFormed};
ghost use Rattle.lid_emit_circuit.specs.Plans.{CircuitPlan, ends};
ghost use Rattle.lid_emit_system.specs.Nets.{NetWires, read_wire};
ghost use Rattle.lid_emit_system.specs.Wrapping.{input_count, sink_reads};
ghost use Rattle.lid_emit_cells.specs.declared.actor.ActorStations.{ActorStations};
ghost use Rattle.lid_emit_cells.specs.Shown.{wire_of};
ghost use Rattle.lid_emit_cells.specs.Matches.{IsActorOf, IsSmallActor, IsOuterOf};
ghost use Rattle.lid_emit_layout.specs.Plans.{plan_of};
ghost use Rattle.lid_emit_layout.specs.Actors.{AreActorsOf};

use lid_base::Items;
use lid_emit_cells::{ActorStations, Outer, Wire};
use lid_emit_shells::{input_wires, last_stations};
use lid_stations::Placed;
use lid_system::{InBit, Node, System, shells_stand_between_source_and_sink};
use std::alloc::{AllocError, Global};

/// How many data inputs there are.
fn input_count(system: &System) -> usize
    ensures { result ≡ input_count system.now }
{
    match system.nodes.as_slice().get(0) {
        Some(Node::Source { columns }) => columns.len(),
        Some(_) => 0,
        None => 0,
    }
}

/// What the columns of the sink read.
fn sink_reads(system: &System) -> &[InBit]
    requires { IsWellFormed system.now }
    ensures { result.now ≡ sink_reads system.now }
{
    shells_stand_between_source_and_sink();
    let last = system.nodes.len() - 1;
    match &system.nodes.as_slice()[last] {
        Node::Sink { ins, .. } => ins.as_slice(),
        _ => unreachable!(),
    }
}

/// What the data outputs show.
fn make_shows(alloc: Global, placed: &Placed<'_>) -> Result<Items<Wire>, AllocError>
    requires { length (sink_reads placed.now.system) < 32768 }
    ensures is { IfOk result (λ shows. map wire_of shows ≡ map (read_wire placed.now.placement) (sink_reads placed.now.system)) }
    ensures few { IfOk result (λ shows. length shows < 2 ^ 32) }
{
    let reads = sink_reads(placed.system);
    let lasts = last_stations(alloc, placed.placement.relays.as_slice())?;
    let shows = input_wires(alloc, lasts.as_slice(), reads)?;
    Ok(Items::from_vec(shows))
}

/// How many ends an actor has.
fn end_count(actor: &ActorStations) -> u32
    requires { IsSmallActor actor.now }
    ensures { (q : CircuitPlan) (v : ℕ) → IsActorOf q v actor.now → length (ends q v) ≡ result }
{
    (actor.ins.len() + actor.outs.len()) as u32
}

/// The outside of a system, by its actors.
pub(crate) fn make_outer(
    alloc: Global,
    placed: &Placed<'_>,
    actors: &[ActorStations],
) -> Result<Outer, AllocError>
    requires nodes { length placed.now.system.nodes ≤ length actors.now }
    requires small { (v : ℕ) (actor : ActorStations) → slice_get actors.now v ≡ Some actor → IsSmallActor actor }
    requires inputs { input_count placed.now.system < 32768 }
    requires outputs { length (sink_reads placed.now.system) < 32768 }
    ensures is { IfOk result (λ outer. (n : NetWires) → AreActorsOf (plan_of placed.now n) actors.now
        → IsOuterOf (plan_of placed.now n) outer) }
    ensures few { IfOk result (λ outer. length outer.shows < 2 ^ 32) }
{
    let inputs = input_count(placed.system);
    let shows = make_shows(alloc, placed)?;
    let last = placed.system.nodes.len() - 1;
    Ok(Outer {
        inputs: inputs as u32,
        last: last as u32,
        first_ends: end_count(&actors[0]),
        last_ends: end_count(&actors[last]),
        shows,
    })
}

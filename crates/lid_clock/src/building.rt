//! The actors of a run, before it has begun.

ghost use Rattle.std.specs.Prelude.{◌≡◌, ◌+◌, ◌-◌, ◌<◌, ℕ, Bool, List, length, Option, IfOk, IfSome};
ghost use Rattle.lid_system.specs.Systems.{IsWellFormed};
ghost use Rattle.lid_shell_nodes.specs.Placing.{ArePlacesOf};
ghost use Rattle.lid_stations.specs.Placements.{links_of};
ghost use Rattle.lid_stations.specs.Placed.{links_in};
ghost use Rattle.lid_stations.specs.Stations.{actor_count};
ghost use Rattle.lid_shell_laws.specs.Runs.{cap_of};
ghost use Rattle.lid_shell_laws.specs.Setups.{IsInputRow};
ghost use Rattle.lid_clock.specs.Ran.{lent};
ghost use Rattle.lid_clock.specs.Starts.{IsNewRole, IsNew, IsAlone, AreUnjoined};

use crate::actor::ClockActor;
use crate::part::Role;
use lid_shell_nodes::{ShellNode, SinkNode, SourceNode, TokenPlaces};
use lid_stations::Placed;
use lid_system::System;
use std::alloc::{AllocError, Global};

/// The row that the source holds: the first one, or one of zeros where there is none.
fn held_row(alloc: Global, first: Option<&[bool]>, width: usize) -> Result<Vec<bool>, AllocError>
    requires { IfSome (lent first) (λ given. length given ≡ width) }
    ensures wide { IfOk result (λ row. length row.items ≡ width) }
    ensures is { IfOk result (λ row. IfSome (lent first.entry) (λ given. row.items ≡ given)) }
{
    match first {
        Some(row) => Vec::from_slice(alloc, row),
        None => Vec::from_elem(alloc, false, width),
    }
}

/// The source, which holds the first row.
fn source_part(alloc: Global, system: &System, first: Option<&[bool]>) -> Result<Role, AllocError>
    requires system { IsWellFormed system.now }
    requires first { IfSome (lent first) (IsInputRow system.now) }
    ensures { IfOk result (IsNewRole system.now (lent first.entry) 0) }
{
    let node = SourceNode::of(alloc, system)?;
    let row = held_row(alloc, first, node.width())?;
    Ok(Role::Source(node, row))
}

/// A shell.
fn shell_part(
    alloc: Global,
    system: &System,
    places: &TokenPlaces,
    v: u32,
) -> Result<Role, AllocError>
    requires system { IsWellFormed system.now }
    requires places { ArePlacesOf system.now places.now }
    requires shell { (0 < v) × (v + 1 < length system.now.nodes) }
    ensures { IfOk result (λ part. (first : Option (List Bool)) → IsNewRole system.now first v part) }
{
    let node = ShellNode::at(alloc, system, places, v)?;
    Ok(Role::Shell(node))
}

/// The sink.
fn sink_part(alloc: Global, system: &System) -> Result<Role, AllocError>
    requires { IsWellFormed system.now }
    ensures { IfOk result (λ part. (first : Option (List Bool)) → IsNewRole system.now first (length system.now.nodes - 1) part) }
{
    let node = SinkNode::of(alloc, system)?;
    let row = Vec::from_elem(alloc, false, node.width())?;
    Ok(Role::Sink(node, row))
}

/// The part of an actor.
fn new_part(
    alloc: Global,
    system: &System,
    places: &TokenPlaces,
    first: Option<&[bool]>,
    v: u32,
) -> Result<Role, AllocError>
    requires system { IsWellFormed system.now }
    requires places { ArePlacesOf system.now places.now }
    requires first { IfSome (lent first) (IsInputRow system.now) }
    requires few { v < 2147483648 }
    ensures { IfOk result (IsNewRole system.now (lent first.entry) v) }
{
    let nodes = system.nodes.len() as u32;
    if v == 0 {
        source_part(alloc, system, first)
    } else if v + 1 < nodes {
        shell_part(alloc, system, places, v)
    } else if v < nodes {
        sink_part(alloc, system)
    } else {
        Ok(Role::Mover)
    }
}

/// How often an actor fires in a run of so many rows.
fn cap_at(system: &System, rows: u64, v: u32) -> u64
    requires system { IsWellFormed system.now }
    requires few { v < 2147483648 }
    ensures { result ≡ cap_of (links_of system.now) rows v }
{
    if v + 1 < system.nodes.len() as u32 {
        rows.saturating_sub(1)
    } else {
        rows
    }
}

/// An actor to which no station is joined.
fn new_actor(
    alloc: Global,
    system: &System,
    places: &TokenPlaces,
    rows: u64,
    first: Option<&[bool]>,
    v: u32,
) -> Result<ClockActor, AllocError>
    requires system { IsWellFormed system.now }
    requires places { ArePlacesOf system.now places.now }
    requires first { IfSome (lent first) (IsInputRow system.now) }
    requires few { v < 2147483648 }
    ensures new { IfOk result (IsNew system.now rows (lent first.entry) v) }
    ensures alone { IfOk result IsAlone }
{
    let part = new_part(alloc, system, places, first, v)?;
    Ok(ClockActor {
        part,
        ins: Vec::new(alloc),
        outs: Vec::new(alloc),
        taken: Vec::new(alloc),
        tokens: Vec::new(alloc),
        fired: 0,
        cap: cap_at(system, rows, v),
        went: false,
    })
}

/// How many actors there are: all nodes, and a mover for each station but the last of each channel.
fn actors_of(placed: &Placed<'_>) -> u32
    ensures is { result ≡ actor_count (links_in placed.now) placed.now.placement }
    ensures few { result < 2147483648 }
{
    let movers = placed.placement.caps.len() - placed.placement.relays.len();
    (placed.system.nodes.len() + movers) as u32
}

/// All actors, to which no station is joined.
pub(crate) fn new_actors(
    alloc: Global,
    placed: &Placed<'_>,
    rows: u64,
    first: Option<&[bool]>,
) -> Result<Vec<ClockActor>, AllocError>
    requires first { IfSome (lent first) (IsInputRow placed.now.system) }
    ensures { IfOk result (λ actors. AreUnjoined placed.now.system rows (lent first.entry)
        (actor_count (links_in placed.now) placed.now.placement) actors.items) }
{
    let places = TokenPlaces::of(alloc, placed.system)?;
    let mut actors = Vec::new(alloc);
    for v in 0..actors_of(placed) {
        actors.push(new_actor(alloc, placed.system, &places, rows, first, v)?)?;
    }
    Ok(actors)
}

//! The actors that are nodes.

ghost use Rattle.std.specs.Prelude.{◌<◌, ◌+◌, ◌-◌, length, IfOk, OnOk};
ghost use Rattle.lid_texts_packed.specs.Input.{input_of};
ghost use Rattle.lid_walk.specs.Inside.{AreWired, IsUnfiredActor, AreFirstActors};

use crate::ends::NodeWiring;
use lid_shell::Actor;
use lid_shell_nodes::ShellNode;
use lid_stations::Placed;
use lid_texts_packed::InputRows;
use std::alloc::{AllocError, Global};

/// The source.
fn source_of<'r>(
    alloc: Global,
    placed: &Placed<'_>,
    wiring: &NodeWiring,
    rows: InputRows<'r>,
) -> Result<Actor<'r>, AllocError>
    requires wired { AreWired placed.now wiring.now }
    ensures { IfOk result (IsUnfiredActor placed.now (input_of rows.entry) 0) }
{
    let system = placed.system;
    let outs = wiring.outs.as_slice()[0].as_slice();
    Actor::source_over(alloc, system, rows, outs)
}

/// A shell.
fn shell_of<'r>(
    alloc: Global,
    placed: &Placed<'_>,
    wiring: &NodeWiring,
    rows: InputRows<'r>,
    node: u32,
) -> Result<Actor<'r>, AllocError>
    requires wired { AreWired placed.now wiring.now }
    requires shell { (0 < node) × (node + 1 < length placed.now.system.nodes) }
    ensures { IfOk result (IsUnfiredActor placed.now (input_of rows.entry) node) }
{
    let ins = wiring.ins.as_slice()[node as usize].as_slice();
    let outs = wiring.outs.as_slice()[node as usize].as_slice();
    let part = ShellNode::at(alloc, placed.system, &wiring.places, node)?;
    Actor::shell_with(alloc, part, ins, outs, rows.len() as u64)
}

/// The sink.
fn sink_of<'r>(
    alloc: Global,
    placed: &Placed<'_>,
    wiring: &NodeWiring,
    rows: InputRows<'r>,
) -> Result<Actor<'r>, AllocError>
    requires wired { AreWired placed.now wiring.now }
    ensures { IfOk result (IsUnfiredActor placed.now (input_of rows.entry) (length placed.now.system.nodes - 1)) }
{
    let last = placed.system.nodes.len() - 1;
    let ins = wiring.ins.as_slice()[last].as_slice();
    Actor::sink(alloc, placed.system, ins, rows.len() as u64)
}

/// The actor that is a node.
fn node_of<'r>(
    alloc: Global,
    placed: &Placed<'_>,
    wiring: &NodeWiring,
    rows: InputRows<'r>,
    node: u32,
) -> Result<Actor<'r>, AllocError>
    requires wired { AreWired placed.now wiring.now }
    requires node { node < length placed.now.system.nodes }
    ensures { IfOk result (IsUnfiredActor placed.now (input_of rows.entry) node) }
{
    if node == 0 {
        source_of(alloc, placed, wiring, rows)
    } else if node + 1 < placed.system.nodes.len() as u32 {
        shell_of(alloc, placed, wiring, rows, node)
    } else {
        sink_of(alloc, placed, wiring, rows)
    }
}

/// Appends the actors that are nodes, where there is no actor yet.
pub(crate) fn push_nodes<'r>(
    alloc: Global,
    placed: &Placed<'_>,
    rows: InputRows<'r>,
    actors: &mut Vec<Actor<'r>>,
) -> Result<(), AllocError>
    requires none { AreFirstActors placed.now (input_of rows) 0 actors.old.items }
    ensures { OnOk result (AreFirstActors placed.now (input_of rows.entry) (length placed.now.system.nodes) actors.new.items) }
{
    let wiring = NodeWiring::of(alloc, placed)?;
    for node in 0..placed.system.nodes.len() as u32 {
        actors.push(node_of(alloc, placed, &wiring, rows, node)?)?;
    }
    Ok(())
}

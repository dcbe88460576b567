//! The tokens of the first row that a node puts.

ghost use Rattle.std.specs.Prelude.{◌≡◌, ◌<◌, ◌+◌, Bool, List, length, Some, slice_get, IfOk};
ghost use Rattle.lid_design.specs.Network.{Table};
ghost use Rattle.lid_system.specs.Systems.{Point, IsWellFormed};
ghost use Rattle.lid_system.specs.Tables.{IsTable};
ghost use Rattle.lid_shell_laws.specs.Setups.{IsInputRow};
ghost use Rattle.lid_shell_nodes.specs.Nodes.{tokens_from};
ghost use Rattle.lid_shell_nodes.specs.Placing.{ArePlacesOf};
ghost use Rattle.lid_shell_nodes.specs.Wiring.{ports_from};
ghost use Rattle.lid_walk.specs.Inside.{AreTokensOf};

use lid_shell_nodes::{ShellNode, SourceNode, TokenPlaces};
use lid_system::System;
use std::alloc::{AllocError, Global};

/// The tokens of the first row that the source puts, one for each of so many channels.
fn source_tokens(
    alloc: Global,
    system: &System,
    row: &[bool],
    many: usize,
) -> Result<Vec<u32>, AllocError>
    requires system { IsWellFormed system.now }
    requires row { IsInputRow system.now row.now }
    requires many { many ≡ length (ports_from system.now 0) }
    ensures many { IfOk result (λ tokens. length tokens.items ≡ many) }
    ensures tokens { IfOk result (λ tokens. AreTokensOf system.now 0 row.now tokens.items) }
{
    let node = SourceNode::of(alloc, system)?;
    let mut tokens = Vec::from_elem(alloc, 0u32, many)?;
    node.put(row, tokens.as_mut_slice());
    Ok(tokens)
}

/// The tokens of the first row that a shell puts, whatever that row is.
fn shell_tokens(
    alloc: Global,
    system: &System,
    places: &TokenPlaces,
    node: u32,
    many: usize,
) -> Result<Vec<u32>, AllocError>
    requires system { IsWellFormed system.now }
    requires places { ArePlacesOf system.now places.now }
    requires shell { (0 < node) × (node + 1 < length system.now.nodes) }
    requires many { many ≡ length (ports_from system.now node) }
    ensures many { IfOk result (λ tokens. length tokens.items ≡ many) }
    ensures tokens { IfOk result (λ tokens. (row : List Bool) → AreTokensOf system.now node row tokens.items) }
{
    let mut shell = ShellNode::at(alloc, system, places, node)?;
    let mut tokens = Vec::from_elem(alloc, 0u32, many)?;
    shell.show(tokens.as_mut_slice());
    Ok(tokens)
}

/// The tokens of the first row that a node puts, which is not the sink.
pub(crate) fn node_tokens(
    alloc: Global,
    system: &System,
    places: &TokenPlaces,
    node: u32,
    row: &[bool],
    many: usize,
) -> Result<Vec<u32>, AllocError>
    requires system { IsWellFormed system.now }
    requires places { ArePlacesOf system.now places.now }
    requires node { node + 1 < length system.now.nodes }
    requires row { IsInputRow system.now row.now }
    requires many { many ≡ length (ports_from system.now node) }
    ensures many { IfOk result (λ tokens. length tokens.items ≡ many) }
    ensures tokens { IfOk result (λ tokens. AreTokensOf system.now node row.now tokens.items) }
{
    if node == 0 {
        source_tokens(alloc, system, row, many)
    } else {
        shell_tokens(alloc, system, places, node, many)
    }
}

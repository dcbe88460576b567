//! The source.

ghost use Rattle.std.specs.Prelude.{◌≡◌, ◌<◌, ◌+◌, ℕ, Bool, List, length, map, Some, slice_get, IfOk};
ghost use Rattle.lid_design.specs.Network.{Table};
ghost use Rattle.lid_system.specs.declared.System.{System};
ghost use Rattle.lid_system.specs.Systems.{Point, IsWellFormed};
ghost use Rattle.lid_system.specs.Tables.{IsTable};
ghost use Rattle.lid_shell_nodes.specs.Nodes.{tokens_from};
ghost use Rattle.lid_shell_nodes.specs.Wiring.{IsSourceOf};

use crate::wires::{pack_all, ports_of};
use lid_base::Items;
use lid_system::{Node, System, shells_stand_between_source_and_sink};
use std::alloc::{AllocError, Global};
use std::marker::Model;

/// The source of a system: it makes tokens of rows.
#[derive(Drop)]
pub struct SourceNode {
    width: usize,
    ports: Vec<Items<u32>>,
}

impl Model for SourceNode {
    ghost use Rattle.std.specs.List.{AllByRecursion};
    ghost use Rattle.lid_shell_nodes.specs.Wiring.{SourceView, IsPackOf};

    ghost Value = { SourceView };

    ghost view = { λ p. record { width = p.width; ports = p.ports.items } };

    ghost invariant = { λ p. AllByRecursion (IsPackOf p.width) p.ports.items };
}

impl SourceNode {
    /// The source of a system.
    pub fn of(alloc: Global, system: &System) -> Result<SourceNode, AllocError>
        requires { IsWellFormed system.now }
        ensures { IfOk result (IsSourceOf system.now) }
    {
        shells_stand_between_source_and_sink();
        let width = match &system.nodes.as_slice()[0] {
            Node::Source { columns } => columns.len(),
            _ => unreachable!(),
        };
        let ports = ports_of(alloc, system.channels.as_slice(), 0)?;
        Ok(SourceNode { width, ports })
    }

    /// How many columns its rows have.
    pub fn width(&self) -> usize
        ensures { result ≡ self.now.width }
    {
        self.width
    }

    /// Writes the tokens of a row, one for each channel that comes from the source.
    pub fn put(&self, row: &[bool], into: &mut [u32])
        requires row { length row.now ≡ self.now.width }
        requires many { length into.old ≡ length self.now.ports }
        ensures many { length into.new ≡ length into.old }
        ensures tokens { (s : System) (rows : List (List Bool)) (b : Table Point) (t : ℕ) → IsWellFormed s → IsSourceOf s self.now → IsTable s rows b
            → slice_get rows t ≡ Some row.now → into.new ≡ tokens_from s b 0 t }
    {
        pack_all(row, self.ports.as_slice(), into);
    }
}

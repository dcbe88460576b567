//! The sink.

ghost use Rattle.std.specs.Prelude.{◌≡◌, ◌<◌, ◌-◌, ℕ, Bool, List, length, map, Some, slice_get, IfOk};
ghost use Rattle.lid_design.specs.Network.{Table};
ghost use Rattle.lid_system.specs.declared.System.{System};
ghost use Rattle.lid_system.specs.Systems.{Point, IsWellFormed};
ghost use Rattle.lid_system.specs.Tables.{IsTable};
ghost use Rattle.lid_system.specs.Streams.{output_row};
ghost use Rattle.lid_shell_nodes.specs.Nodes.{tokens_to};
ghost use Rattle.lid_shell_nodes.specs.Wiring.{IsSinkOf};

use crate::wires::{Inputs, TokenPlaces, inputs_of, read_all};
use lid_system::{Node, System, shells_stand_between_source_and_sink};
use std::alloc::{AllocError, Global};
use std::marker::Model;

/// The sink of a system: it makes rows of tokens.
#[derive(Drop)]
pub struct SinkNode {
    inputs: Inputs,
}

impl Model for SinkNode {
    ghost use Rattle.std.specs.List.{AllByRecursion};
    ghost use Rattle.lid_shell_nodes.specs.Wiring.{SinkView, IsReadOf};

    ghost Value = { SinkView };

    ghost view = { λ p. record { taken = p.inputs.taken; reads = p.inputs.reads.items } };

    ghost invariant = { λ p. AllByRecursion (IsReadOf p.inputs.taken) p.inputs.reads.items };
}

impl SinkNode {
    /// The sink of a system.
    pub fn of(alloc: Global, system: &System) -> Result<SinkNode, AllocError>
        requires { IsWellFormed system.now }
        ensures { IfOk result (λ x. IsSinkOf system.now (length system.now.nodes - 1) x) }
    {
        shells_stand_between_source_and_sink();
        let places = TokenPlaces::of(alloc, system)?;
        let last = system.nodes.len() - 1;
        match &system.nodes.as_slice()[last] {
            Node::Sink { ins, .. } => {
                let inputs = inputs_of(alloc, &places, last as u32, ins.as_slice())?;
                Ok(SinkNode { inputs })
            }
            _ => unreachable!(),
        }
    }

    /// How many columns its rows have.
    pub fn width(&self) -> usize
        ensures { result ≡ length self.now.reads }
    {
        self.inputs.reads.len()
    }

    /// Writes the output row of the tokens that are taken.
    pub fn give(&self, taken: &[u32], into: &mut [bool])
        requires taken { length taken.now ≡ self.now.taken }
        requires wide { length into.old ≡ length self.now.reads }
        ensures wide { length into.new ≡ length into.old }
        ensures row { (s : System) (rows : List (List Bool)) (b : Table Point) (v t : ℕ) → IsWellFormed s → IsTable s rows b → t < length rows
            → IsSinkOf s v self.now → taken.now ≡ tokens_to s b v t → into.new ≡ output_row s b t }
    {
        read_all(self.inputs.reads.as_slice(), taken, into);
    }
}

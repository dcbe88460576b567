//! Shells.

ghost use Rattle.std.specs.Prelude.{◌≡◌, ◌<◌, ◌+◌, ℕ, Bool, List, length, map, Some, slice_get, IfOk};
ghost use Rattle.std.specs.List.{AllByRecursion};
ghost use Rattle.lid_design.specs.Network.{Table};
ghost use Rattle.lid_system.specs.declared.System.{System};
ghost use Rattle.lid_system.specs.declared.Node.TheVariants.{Shell};
ghost use Rattle.lid_system.specs.Systems.{Point, IsRead, IsWellFormed};
ghost use Rattle.lid_system.specs.Tables.{IsTable};
ghost use Rattle.lid_shell_nodes.specs.Nodes.{channels_to, tokens_to, tokens_from};
ghost use Rattle.lid_shell_nodes.specs.Wiring.{read_of, ports_from, IsShellOf};
ghost use Rattle.lid_shell_nodes.specs.Placing.{ArePlacesOf};

use crate::wires::{Inputs, TokenPlaces, inputs_of, pack_all, ports_of, read_all};
use lid_base::Items;
use lid_pearl::Pearl;
use lid_system::{InBit, Node, System, shells_stand_between_source_and_sink};
use std::alloc::{AllocError, Global};
use std::marker::Model;

/// What the inputs of a pearl read, and which of its outputs are put on each channel.
#[derive(Drop)]
struct Wires {
    inputs: Inputs,
    ports: Vec<Items<u32>>,
}

/// Room for the bits of the inputs and the outputs of one row.
#[derive(Drop)]
struct Room {
    ins: Vec<bool>,
    outs: Vec<bool>,
}

/// A shell of a system: its pearl, what each input of the pearl reads of the tokens that are taken, and
/// which outputs are put on each channel.
#[derive(Drop)]
pub struct ShellNode {
    pearl: Pearl,
    wires: Wires,
    room: Room,
}

impl Model for ShellNode {
    ghost use Rattle.std.specs.Prelude.{length};
    ghost use Rattle.lid_shell_nodes.specs.Wiring.{ShellView};
    ghost use Rattle.lid_shell_nodes.specs.Inside.{AreShellFields};

    ghost Value = { ShellView };

    ghost view = { λ p. record { pearl = p.pearl; taken = p.wires.inputs.taken; reads = p.wires.inputs.reads.items; ports = p.wires.ports.items } };

    ghost invariant = { λ p. AreShellFields (length p.pearl.flat.ins) (length p.pearl.flat.outs) p.wires.inputs.taken p.wires.inputs.reads.items
        p.wires.ports.items p.room.ins.items p.room.outs.items };
}

impl ShellNode {
    /// The shell at a node of a system, in the state of the first row.
    pub fn of(alloc: Global, system: &System, node: u32) -> Result<ShellNode, AllocError>
        requires system { IsWellFormed system.now }
        requires shell { (0 < node) × (node + 1 < length system.now.nodes) }
        ensures { IfOk result (λ x. (b : Table Point) → IsShellOf system.now b node 0 x) }
    {
        let places = TokenPlaces::of(alloc, system)?;
        ShellNode::at(alloc, system, &places, node)
    }

    /// The same, where the places of all tokens are at hand.
    pub fn at(
        alloc: Global,
        system: &System,
        places: &TokenPlaces,
        node: u32,
    ) -> Result<ShellNode, AllocError>
        requires system { IsWellFormed system.now }
        requires places { ArePlacesOf system.now places.now }
        requires shell { (0 < node) × (node + 1 < length system.now.nodes) }
        ensures { IfOk result (λ x. (b : Table Point) → IsShellOf system.now b node 0 x) }
    {
        shells_stand_between_source_and_sink();
        match &system.nodes.as_slice()[node as usize] {
            Node::Shell { pearl, ins } => {
                ShellNode::make(alloc, system, places, node, pearl, ins.as_slice())
            }
            _ => unreachable!(),
        }
    }

    /// The shell at a node, by what the node is.
    fn make(
        alloc: Global,
        system: &System,
        places: &TokenPlaces,
        node: u32,
        pearl: &Pearl,
        ins: &[InBit],
    ) -> Result<ShellNode, AllocError>
        requires system { IsWellFormed system.now }
        requires places { ArePlacesOf system.now places.now }
        requires shell { slice_get system.now.nodes node ≡ Some (Shell pearl.now ins.now) }
        ensures { IfOk result (λ x. (b : Table Point) → IsShellOf system.now b node 0 x) }
    {
        let copy = pearl.copy()?;
        let wires = wires_of(alloc, system, places, node, ins)?;
        let room = room_of(alloc, ins.len(), copy.outs())?;
        Ok(ShellNode {
            pearl: copy,
            wires,
            room,
        })
    }

    /// Writes the tokens that the present state shows, one for each channel that comes from the shell.
    pub fn show(&mut self, into: &mut [u32])
        requires { length into.old ≡ length self.old.ports }
        ensures many { length into.new ≡ length into.old }
        ensures kept { self.new ≡ self.old }
        ensures tokens { (s : System) (rows : List (List Bool)) (b : Table Point) (v t : ℕ) → IsWellFormed s → IsTable s rows b → t < length rows
            → IsShellOf s b v t self.old → into.new ≡ tokens_from s b v t }
    {
        self.pearl.outputs(self.room.outs.as_mut_slice());
        pack_all(self.room.outs.as_slice(), self.wires.ports.as_slice(), into);
    }

    /// Fires: takes the tokens of a row, moves the pearl by that row, and writes the tokens of the next row.
    pub fn fire(&mut self, taken: &[u32], into: &mut [u32])
        requires taken { length taken.now ≡ self.old.taken }
        requires many { length into.old ≡ length self.old.ports }
        ensures many { length into.new ≡ length into.old }
        ensures shape { (self.new.taken ≡ self.old.taken) × (self.new.ports ≡ self.old.ports) }
        ensures goes { (s : System) (rows : List (List Bool)) (b : Table Point) (v t : ℕ) → IsWellFormed s → IsTable s rows b → t < length rows
            → IsShellOf s b v t self.old → taken.now ≡ tokens_to s b v t → IsShellOf s b v (t + 1) self.new }
        ensures gives { (s : System) (rows : List (List Bool)) (b : Table Point) (v t : ℕ) → IsWellFormed s → IsTable s rows b → t + 1 < length rows
            → IsShellOf s b v t self.old → taken.now ≡ tokens_to s b v t → into.new ≡ tokens_from s b v (t + 1) }
    {
        read_all(
            self.wires.inputs.reads.as_slice(),
            taken,
            self.room.ins.as_mut_slice(),
        );
        self.pearl
            .step(self.room.ins.as_slice(), self.room.outs.as_mut_slice());
        pack_all(self.room.outs.as_slice(), self.wires.ports.as_slice(), into);
    }
}

/// What a shell reads and puts.
fn wires_of(
    alloc: Global,
    system: &System,
    places: &TokenPlaces,
    node: u32,
    ins: &[InBit],
) -> Result<Wires, AllocError>
    requires system { IsWellFormed system.now }
    requires places { ArePlacesOf system.now places.now }
    requires node { node < length system.now.nodes }
    requires read { AllByRecursion (IsRead system.now node) ins.now }
    ensures taken { IfOk result (λ x. x.inputs.taken ≡ length (channels_to system.now.channels node)) }
    ensures reads { IfOk result (λ x. x.inputs.reads.items ≡ map (read_of system.now.channels node) ins.now) }
    ensures ports { IfOk result (λ x. x.ports.items ≡ ports_from system.now node) }
{
    let inputs = inputs_of(alloc, places, node, ins)?;
    let ports = ports_of(alloc, system.channels.as_slice(), node)?;
    Ok(Wires { inputs, ports })
}

/// Room for so many inputs and outputs.
fn room_of(alloc: Global, ins: usize, outs: usize) -> Result<Room, AllocError>
    ensures ins { IfOk result (λ room. length room.ins.items ≡ ins) }
    ensures outs { IfOk result (λ room. length room.outs.items ≡ outs) }
{
    let ins = Vec::from_elem(alloc, false, ins)?;
    let outs = Vec::from_elem(alloc, false, outs)?;
    Ok(Room { ins, outs })
}

//! The nodes of a system.

ghost use Rattle.std.specs.Prelude.{◌≡◌, ◌<◌, ◌≤◌, ◌+◌, ◌++◌, ◌∷◌, [], List, length, map, IfOk, OnOk};
ghost use Rattle.std.specs.List.{AllByRecursion};
ghost use Rattle.lid_design.specs.Loops.{pearls};
ghost use Rattle.lid_system.specs.declared.Channel.{Channel};
ghost use Rattle.lid_system.specs.declared.InBit.{InBit};
ghost use Rattle.lid_system.specs.declared.Node.TheVariants.{Sink};
ghost use Rattle.lid_net_channels.specs.Bits.{CarryAll};
ghost use Rattle.lid_net.specs.Marks.{ins_of};
ghost use Rattle.lid_net.specs.Nodes.{IsWired, IsBitFor, AreInBits, CanRead, CanReadAll, IsShellFor, AreNodes, AreShellsSoFar};

use crate::leading::origin_of;
use crate::origin::Origin;
use crate::pearls::pearl_of;
use crate::ports::ShellPorts;
use crate::sharing::{FirstShells, with_layout_at};
use lid_base::{Items, Name, copy_names};
use lid_check::Checked;
use lid_net_channels::{Read, find_bit};
use lid_system::{InBit, Node};
use std::alloc::{AllocError, Global};

/// Where columns are led back to, what nodes read, and the bit of each read.
#[derive(Drop)]
pub struct Wiring {
    pub origins: Vec<Option<Origin>>,
    pub reads: Vec<Read>,
    pub bits: Vec<InBit>,
}

/// The root's data inputs and outputs, and the numbers of the columns of the outputs.
#[derive(Clone, Copy)]
pub struct Ends<'c> {
    pub inputs: &'c [Name],
    pub outputs: &'c [Name],
    pub numbers: &'c [u32],
}

/// What an input of a node reads.
fn bit_of(wiring: &Wiring, to: u32, number: u32) -> InBit
    requires wired { IsWired wiring.now }
    requires led { CanRead wiring.now to number }
    ensures { (channels : List Channel) → CarryAll channels wiring.now.reads.items wiring.now.bits.items
        → IsBitFor channels wiring.now.origins.items to number result }
{
    match origin_of(wiring.origins.as_slice(), number) {
        Some(Origin::Const(bit)) => InBit::Const(bit),
        Some(Origin::Port { node, place }) => find_bit(
            wiring.reads.as_slice(),
            wiring.bits.as_slice(),
            Read {
                from: node,
                to,
                port: place,
            },
        ),
        None => unreachable!(),
    }
}

/// What the inputs of a node read.
fn bits_of(alloc: Global, wiring: &Wiring, to: u32, ins: &[u32]) -> Result<Items<InBit>, AllocError>
    requires wired { IsWired wiring.now }
    requires led { AllByRecursion (CanRead wiring.now to) ins.now }
    ensures { IfOk result (λ bits. (channels : List Channel) → CarryAll channels wiring.now.reads.items wiring.now.bits.items
        → AreInBits channels wiring.now.origins.items to ins.now bits) }
{
    let mut bits = Vec::with_capacity(alloc, ins.len())?;
    for number in ins {
        bits.push(bit_of(wiring, to, *number))?;
    }
    Ok(Items::from_vec(bits))
}

/// The nodes of a system: a source of these columns, a shell for each pearl, and a sink. Each pearl is made
/// with its shell.
pub(crate) fn make_nodes(
    alloc: Global,
    checked: &Checked,
    wiring: &Wiring,
    ports: &[ShellPorts],
    ends: &Ends<'_>,
) -> Result<Items<Node>, AllocError>
    requires few { length ports.now ≤ 4096 }
    requires pearls { length ports.now ≤ length (pearls checked.now) }
    requires wired { IsWired wiring.now }
    requires led { CanReadAll wiring.now 1 (map ins_of ports.now ++ ends.now.numbers.now ∷ []) }
    ensures { IfOk result (λ nodes. (channels : List Channel) → CarryAll channels wiring.now.reads.items wiring.now.bits.items
        → AreNodes checked.now channels wiring.now.origins.items ports.now ends.now.inputs.now ends.now.outputs.now ends.now.numbers.now nodes) }
{
    let mut nodes = Vec::with_capacity(alloc, ports.len() + 2)?;
    let columns = copy_names(alloc, ends.inputs)?;
    nodes.push(Node::Source { columns })?;
    push_shells(alloc, checked, wiring, ports, &mut nodes)?;
    let sink = ports.len() as u32 + 1;
    push_sink(alloc, wiring, sink, ends, &mut nodes)?;
    Ok(Items::from_vec(nodes))
}

/// Appends the sink.
fn push_sink(
    alloc: Global,
    wiring: &Wiring,
    node: u32,
    ends: &Ends<'_>,
    nodes: &mut Vec<Node>,
) -> Result<(), AllocError>
    requires wired { IsWired wiring.now }
    requires led { AllByRecursion (CanRead wiring.now node) ends.now.numbers.now }
    ensures { OnOk result ((ins : List InBit) × (nodes.new.items ≡ nodes.old.items ++ Sink ends.now.outputs.now ins ∷ [])
        × ((channels : List Channel) → CarryAll channels wiring.now.reads.items wiring.now.bits.items
        → AreInBits channels wiring.now.origins.items node ends.now.numbers.now ins)) }
{
    let ins = bits_of(alloc, wiring, node, ends.numbers)?;
    let columns = copy_names(alloc, ends.outputs)?;
    nodes.push(Node::Sink { columns, ins })?;
    Ok(())
}

/// Appends a shell for each pearl. Those of one model have their layout in common, which no clause says.
fn push_shells(
    alloc: Global,
    checked: &Checked,
    wiring: &Wiring,
    ports: &[ShellPorts],
    nodes: &mut Vec<Node>,
) -> Result<(), AllocError>
    requires few { length ports.now ≤ 4096 }
    requires pearls { length ports.now ≤ length (pearls checked.now) }
    requires wired { IsWired wiring.now }
    requires led { CanReadAll wiring.now 1 (map ins_of ports.now) }
    ensures { OnOk result (AreShellsSoFar checked.now wiring.now ports.now nodes.old.items nodes.new.items) }
{
    let mut firsts = FirstShells::new(alloc, checked.design())?;
    for i in 0..ports.len() {
        let first = firsts.enter(i, nodes.len())?;
        let shell = shell_of(alloc, checked, wiring, i as u32, &ports[i])?;
        let shell = with_layout_at(nodes.as_slice(), first, shell);
        nodes.push(shell)?;
    }
    Ok(())
}

/// The shell of a pearl, which has these ports.
fn shell_of(
    alloc: Global,
    checked: &Checked,
    wiring: &Wiring,
    pearl: u32,
    ports: &ShellPorts,
) -> Result<Node, AllocError>
    requires few { pearl < 4096 }
    requires there { pearl < length (pearls checked.now) }
    requires wired { IsWired wiring.now }
    requires led { AllByRecursion (CanRead wiring.now (pearl + 1)) ports.now.ins }
    ensures { IfOk result (λ shell. (channels : List Channel) → CarryAll channels wiring.now.reads.items wiring.now.bits.items
        → IsShellFor checked.now channels wiring.now.origins.items pearl ports.now shell) }
{
    let ins = bits_of(alloc, wiring, pearl + 1, ports.ins.as_slice())?;
    let pearl = pearl_of(alloc, checked, pearl)?;
    Ok(Node::Shell { pearl, ins })
}

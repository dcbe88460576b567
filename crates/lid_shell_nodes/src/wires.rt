//! How inputs read tokens, and how outputs become tokens.

ghost use Rattle.std.specs.Prelude.{◌≡◌, ◌≤◌, ◌<◌, ◌+◌, ℕ, Bool, List, length, map, slice_index_or, IfOk};
ghost use Rattle.std.specs.List.{AllByRecursion};
ghost use Rattle.lid_system.specs.Systems.{IsWellFormed};
ghost use Rattle.lid_shell_nodes.specs.Nodes.{channels_from};
ghost use Rattle.lid_shell_nodes.specs.Wiring.{IsReadOf, IsPackOf};
ghost use Rattle.lid_shell_nodes.specs.Placing.{ArePlacesOf};
ghost use Rattle.lid_shell_nodes.specs.Inside.{bit_read, token_of_bits, read_in, ReadsBelow, StandByOrigin};

use lid_base::Items;
use lid_strict_engine::copy_of;
use lid_system::{Channel, InBit, System, pack, unpack};
use std::alloc::{AllocError, Global};

/// What an input reads of the tokens that its node takes.
#[derive(Clone, Copy, PartialEq, Eq)]
pub enum InputRead {
    /// A bit that is the same in all rows.
    Const(bool),
    /// A bit of the token of a channel, by the channel's place among those that lead to the node.
    Bit { place: u32, bit: u32 },
}

/// What the inputs of a node read, and how many tokens the node takes.
#[derive(Drop)]
pub struct Inputs {
    pub taken: u32,
    pub reads: Vec<InputRead>,
}

/// The bit of an input.
fn bit_of(read: InputRead, taken: &[u32]) -> bool
    requires { IsReadOf (length taken.now) read }
    ensures { result ≡ bit_read taken.now read }
{
    match read {
        InputRead::Const(value) => value,
        InputRead::Bit { place, bit } => unpack(taken[place as usize], bit),
    }
}

/// Writes the bits of inputs, in order, from the tokens that are taken.
pub fn read_all(reads: &[InputRead], taken: &[u32], bits: &mut [bool])
    requires reads { AllByRecursion (IsReadOf (length taken.now)) reads.now }
    requires long { length bits.old ≡ length reads.now }
    ensures { bits.new ≡ map (bit_read taken.now) reads.now }
{
    for i in 0..reads.len() {
        bits[i] = bit_of(reads[i], taken);
    }
}

/// Writes the tokens of lists of ports, in order, where each port has a bit.
pub fn pack_all(bits: &[bool], ports: &[Items<u32>], into: &mut [u32])
    requires ports { AllByRecursion (IsPackOf (length bits.now)) ports.now }
    requires long { length into.old ≡ length ports.now }
    ensures { into.new ≡ map (token_of_bits bits.now) ports.now }
{
    for i in 0..ports.len() {
        into[i] = pack(bits, ports[i].as_slice());
    }
}

/// Where the token of each channel stands among those that the node takes to which the channel leads, and how many
/// tokens each node takes.
#[derive(Drop)]
pub struct TokenPlaces {
    places: Vec<u32>,
    taken: Vec<u32>,
}

impl TokenPlaces {
    /// Those of all channels and nodes of a system. It goes once over all channels.
    ///
    /// # Errors
    /// Memory is wanting.
    pub fn of(alloc: Global, system: &System) -> Result<TokenPlaces, AllocError>
        requires { IsWellFormed system.now }
        ensures { IfOk result (ArePlacesOf system.now) }
    {
        let mut taken = Vec::from_elem(alloc, 0u32, system.nodes.len())?;
        let mut places = Vec::with_capacity(alloc, system.channels.len())?;
        for channel in system.channels.as_slice() {
            let node = channel.to as usize;
            places.push(taken[node])?;
            taken[node] += 1;
        }
        Ok(TokenPlaces { places, taken })
    }
}

/// What an input reads, by the places of channels.
fn placed(input: InBit, places: &[u32]) -> InputRead
    requires { ReadsBelow (length places.now) input }
    ensures { result ≡ read_in places.now input }
{
    match input {
        InBit::Const(value) => InputRead::Const(value),
        InBit::Port { chan, bit } => InputRead::Bit {
            place: places[chan as usize],
            bit,
        },
    }
}

/// What inputs read, by the places of channels.
fn reads_of(alloc: Global, ins: &[InBit], places: &[u32]) -> Result<Vec<InputRead>, AllocError>
    requires { AllByRecursion (ReadsBelow (length places.now)) ins.now }
    ensures { IfOk result (λ reads. reads.items ≡ map (read_in places.now) ins.now) }
{
    let mut reads = Vec::with_capacity(alloc, ins.len())?;
    for input in ins {
        reads.push(placed(*input, places))?;
    }
    Ok(reads)
}

/// The inputs of a node.
pub fn inputs_of(
    alloc: Global,
    places: &TokenPlaces,
    node: u32,
    ins: &[InBit],
) -> Result<Inputs, AllocError>
    requires node { node < length places.now.taken.items }
    requires placed { AllByRecursion (ReadsBelow (length places.now.places.items)) ins.now }
    ensures taken { IfOk result (λ x. x.taken ≡ slice_index_or places.now.taken.items node 0) }
    ensures reads { IfOk result (λ x. x.reads.items ≡ map (read_in places.now.places.items) ins.now) }
{
    let reads = reads_of(alloc, ins, places.places.as_slice())?;
    let taken = places.taken.as_slice()[node as usize];
    Ok(Inputs { taken, reads })
}

/// The channels that come from a node, by halving.
fn those_from(channels: &[Channel], node: u32) -> &[Channel]
    requires { StandByOrigin channels.now }
    ensures { result.now ≡ channels_from channels.now node }
{
    let first = channels.partition_point(|c| c.from < node);
    let end = channels.partition_point(|c| c.from <= node);
    &channels[first..end]
}

/// The ports of each channel that comes from a node.
pub fn ports_of(
    alloc: Global,
    channels: &[Channel],
    node: u32,
) -> Result<Vec<Items<u32>>, AllocError>
    requires { StandByOrigin channels.now }
    ensures { IfOk result (λ ports. ports.items ≡ map (λ c. c.ports) (channels_from channels.now node)) }
{
    let found = those_from(channels, node);
    let mut ports = Vec::new(alloc);
    for channel in found {
        ports.push(Items::from_vec(copy_of(alloc, channel.ports.as_slice())?))?;
    }
    Ok(ports)
}

//! The stations at which nodes take tokens, and those at which they put them.

ghost use Rattle.std.specs.Prelude.{◌<◌, length, IfOk, OnOk};
ghost use Rattle.lid_walk.specs.Inside.{AreEmpty, HasEnd, AreEndsBy, AreWired, AreFillsWired};

use lid_shell_nodes::TokenPlaces;
use lid_station::Side;
use lid_stations::Placed;
use lid_system::Channel;
use std::alloc::{AllocError, Global};

/// So many lists without stations.
fn no_stations(alloc: Global, count: usize) -> Result<Vec<Vec<u32>>, AllocError>
    ensures { IfOk result (λ lists. AreEmpty count lists.items) }
{
    let mut lists = Vec::new(alloc);
    for _ in 0..count {
        lists.push(Vec::new(alloc))?;
    }
    Ok(lists)
}

/// Appends the station of a channel at which a node takes or puts to the list of that node: the one to which the
/// channel leads, or from which it comes.
fn push_end(
    lists: &mut Vec<Vec<u32>>,
    side: Side,
    channel: &Channel,
    first: u32,
    last: u32,
) -> Result<(), AllocError>
    requires comes { channel.now.from < length lists.old.items }
    requires leads { channel.now.to < length lists.old.items }
    ensures { OnOk result (HasEnd side channel.now first last lists.old.items lists.new.items) }
{
    match side {
        Side::Drain => lists[channel.to as usize].push(last)?,
        Side::Fill => lists[channel.from as usize].push(first)?,
    }
    Ok(())
}

/// The stations of which each node has this side, in order: those that it drains are the last ones of the channels
/// that lead to it, and those that it fills the first ones of the channels that come from it. It goes once over all
/// channels.
pub(crate) fn stations_by(
    alloc: Global,
    placed: &Placed<'_>,
    side: Side,
) -> Result<Vec<Vec<u32>>, AllocError>
    ensures { IfOk result (λ lists. AreEndsBy side placed.now lists.items) }
{
    let mut lists = no_stations(alloc, placed.system.nodes.len())?;
    let mut first = 0u32;
    for c in 0..placed.placement.relays.len() {
        let last = first + placed.placement.relays.as_slice()[c];
        let channel = &placed.system.channels.as_slice()[c];
        push_end(&mut lists, side, channel, first, last)?;
        first = last + 1;
    }
    Ok(lists)
}

/// How nodes are wired: where the tokens that they take stand, the stations that each drains, and those that it fills.
#[derive(Drop)]
pub(crate) struct NodeWiring {
    pub(crate) places: TokenPlaces,
    pub(crate) ins: Vec<Vec<u32>>,
    pub(crate) outs: Vec<Vec<u32>>,
}

impl NodeWiring {
    /// That of all nodes. It goes three times over all channels.
    pub(crate) fn of(alloc: Global, placed: &Placed<'_>) -> Result<NodeWiring, AllocError>
        ensures { IfOk result (AreWired placed.now) }
    {
        let places = TokenPlaces::of(alloc, placed.system)?;
        let ins = stations_by(alloc, placed, Side::Drain)?;
        let outs = stations_by(alloc, placed, Side::Fill)?;
        Ok(NodeWiring { places, ins, outs })
    }
}

/// What tokens at the start want of it: where the tokens that nodes take stand, and the stations that each node fills.
#[derive(Drop)]
pub(crate) struct FillWiring {
    pub(crate) places: TokenPlaces,
    pub(crate) outs: Vec<Vec<u32>>,
}

impl FillWiring {
    /// That of all nodes. It goes twice over all channels.
    pub(crate) fn of(alloc: Global, placed: &Placed<'_>) -> Result<FillWiring, AllocError>
        ensures { IfOk result (AreFillsWired placed.now) }
    {
        let places = TokenPlaces::of(alloc, placed.system)?;
        let outs = stations_by(alloc, placed, Side::Fill)?;
        Ok(FillWiring { places, outs })
    }
}

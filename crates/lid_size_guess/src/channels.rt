//! The channels of a marking, and arcs along and back along them between nodes.

use lid_graph::Graph;
use lid_rate_guess::{Groups, edge_at, get, groups_of, put};
use std::alloc::{AllocError, Global};

/// A channel: its producer and its consumer, its first station and how many it has, and the tokens on its
/// edges back.
#[derive(Clone, Copy)]
pub(crate) struct Channel {
    pub(crate) from: u32,
    pub(crate) to: u32,
    pub(crate) first: u32,
    pub(crate) stations: u32,
    pub(crate) room: u64,
}

/// What stands past the last channel.
const NO_CHANNEL: Channel = Channel {
    from: 0,
    to: 0,
    first: 0,
    stations: 0,
    room: 0,
};

/// All channels in order, and the arcs out of each transition: arc 2c goes along channel c, arc 2c + 1 back.
#[derive(Drop)]
pub(crate) struct Channels {
    all: Vec<Channel>,
    arcs: Groups,
}

/// Where an arc begins and ends, how many edges it has, and how many tokens are on them.
#[derive(Clone, Copy)]
pub(crate) struct Arc {
    pub(crate) from: u32,
    pub(crate) to: u32,
    pub(crate) edges: u32,
    pub(crate) tokens: u64,
}

impl Channels {
    /// The channel with this number.
    pub(crate) fn at(&self, number: u32) -> Channel {
        get(&self.all, number, NO_CHANNEL)
    }

    /// The numbers of the arcs out of a transition.
    pub(crate) fn out_of(&self, v: u32) -> &[u32] {
        self.arcs.at(v)
    }

    /// Notes how many tokens are on the edges back of a channel.
    pub(crate) fn set_room(&mut self, number: u32, room: u64) {
        let channel = self.at(number);
        put(&mut self.all, number, Channel { room, ..channel });
    }

    /// The arc with this number.
    pub(crate) fn arc(&self, number: u32) -> Arc {
        let channel = self.at(number / 2);
        if number % 2 == 0 {
            Arc {
                from: channel.from,
                to: channel.to,
                edges: channel.stations,
                tokens: 1,
            }
        } else {
            Arc {
                from: channel.to,
                to: channel.from,
                edges: channel.stations,
                tokens: channel.room,
            }
        }
    }
}

/// Adds a station to the last channel.
fn lengthen(all: &mut [Channel], to: u32, room: u32) {
    let last = all.len().wrapping_sub(1);
    if last < all.len() {
        let channel = all[last];
        all[last] = Channel {
            from: channel.from,
            to,
            first: channel.first,
            stations: channel.stations.wrapping_add(1),
            room: channel.room.wrapping_add(u64::from(room)),
        };
    }
}

/// The channels of so many stations: a station that starts with a token is the first of one.
fn runs_of(alloc: Global, graph: &Graph, stations: u32) -> Result<Vec<Channel>, AllocError> {
    let edges = graph.edges.as_slice();
    let mut all = Vec::new(alloc);
    for station in 0..stations {
        let forth = edge_at(edges, station.wrapping_mul(2));
        let back = edge_at(edges, station.wrapping_mul(2).wrapping_add(1));
        if forth.tokens == 0 {
            lengthen(&mut all, forth.to, back.tokens);
        } else {
            all.push(Channel {
                from: forth.from,
                to: forth.to,
                first: station,
                stations: 1,
                room: u64::from(back.tokens),
            })?;
        }
    }
    Ok(all)
}

/// The arcs by where they begin.
fn arcs_of(alloc: Global, all: &[Channel], count: u32) -> Result<Groups, AllocError> {
    let mut begins = Vec::new(alloc);
    for channel in all {
        begins.push(channel.from)?;
        begins.push(channel.to)?;
    }
    groups_of(alloc, &begins, count)
}

/// The channels of a marking with so many stations.
pub(crate) fn channels_of(
    alloc: Global,
    graph: &Graph,
    stations: u32,
) -> Result<Channels, AllocError> {
    let all = runs_of(alloc, graph, stations)?;
    let arcs = arcs_of(alloc, &all, graph.nodes)?;
    Ok(Channels { all, arcs })
}

/// Appends the edges of an arc, the last of them first.
pub(crate) fn push_back(
    way: &mut Vec<u32>,
    channels: &Channels,
    number: u32,
) -> Result<(), AllocError> {
    let channel = channels.at(number / 2);
    let last = channel.first.wrapping_add(channel.stations).wrapping_sub(1);
    for step in 0..channel.stations {
        if number % 2 == 0 {
            way.push(last.wrapping_sub(step).wrapping_mul(2))?;
        } else {
            let station = channel.first.wrapping_add(step);
            way.push(station.wrapping_mul(2).wrapping_add(1))?;
        }
    }
    Ok(())
}

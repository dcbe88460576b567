//! A channel whose slack is asked, and how far the way from where its last station is drained to where it is filled may
//! be.

use crate::arcs::{Potentials, cost_along, edge_on, start_of, stations_on};
use lid_cert::Cert;
use lid_graph::Graph;
use lid_rate_guess::{edge_at, gcd, get};

/// A channel, the nodes that it joins, the actor that fills its last station, the start tokens of that, the number of
/// its part, and the ratio of that. Its edges before the last station are how a way goes on from the producer.
#[derive(Clone, Copy)]
pub(crate) struct Chain {
    pub(crate) channel: u32,
    pub(crate) producer: u32,
    pub(crate) filler: u32,
    pub(crate) drainer: u32,
    pub(crate) tokens: u64,
    pub(crate) prefix_edges: u32,
    pub(crate) prefix_cost: u64,
    pub(crate) part: u32,
    pub(crate) p: u64,
    pub(crate) q: u64,
}

/// The ratio of a part, by its number, as p and q: 1/1 where there is none.
pub(crate) fn ratio_of(cert: &Cert, number: u32) -> (u64, u64) {
    match cert.parts.as_slice().get(number as usize) {
        Some(part) => (part.p, part.q),
        None => (1, 1),
    }
}

/// The channel with this number.
pub(crate) fn chain_at(graph: &Graph, cert: &Cert, potentials: &Potentials, channel: u32) -> Chain {
    let prefix_edges = stations_on(&potentials.firsts, channel).saturating_sub(1);
    let last = edge_at(
        graph.edges.as_slice(),
        edge_on(&potentials.firsts, channel, false, prefix_edges),
    );
    let part = get(&potentials.owners, last.from, 0);
    let (p, q) = ratio_of(cert, part);
    Chain {
        channel,
        producer: start_of(graph, &potentials.firsts, channel, false),
        filler: last.from,
        drainer: last.to,
        tokens: u64::from(last.tokens),
        prefix_edges,
        prefix_cost: cost_along(potentials, channel, false, prefix_edges),
        part,
        p,
        q,
    }
}

/// How many further relay stations keep the present ratio where the filler is so far.
pub(crate) fn count(lags: &[u64], chain: Chain, far: u64) -> u32 {
    if chain.p == 0 {
        return 0;
    }
    let has = get(lags, chain.drainer, 0).wrapping_add(chain.q.wrapping_mul(chain.tokens));
    let left = has
        .wrapping_add(far)
        .saturating_sub(get(lags, chain.filler, 0));
    let edges = left / chain.p;
    u32::try_from(edges.saturating_sub(1)).unwrap_or(0)
}

/// A ratio that is to be kept, in lowest terms.
#[derive(Clone, Copy)]
pub(crate) struct Aim {
    pub(crate) tokens: u64,
    pub(crate) edges: u64,
}

/// The ratio of the closed walk that a way makes with so many further relay stations.
pub(crate) fn closed(graph: &Graph, way: &[u32], chain: Chain, more: u32) -> Aim {
    let mut tokens = chain.tokens;
    for k in way {
        let edge = edge_at(graph.edges.as_slice(), *k);
        tokens = tokens.wrapping_add(u64::from(edge.tokens));
    }
    let edges = (way.len() as u64)
        .wrapping_add(u64::from(more))
        .wrapping_add(1);
    let common = gcd(tokens, edges).max(1);
    Aim {
        tokens: quotient(tokens, common),
        edges: quotient(edges, common),
    }
}

/// A quotient, or 0 by 0.
pub(crate) fn quotient(number: u64, unit: u64) -> u64 {
    if unit == 0 { 0 } else { number / unit }
}

/// How edges are priced for a ratio: so many times what they cost at the present one, and so much more each. Labels are
/// as many times the lags, and are then divided by `unit`.
#[derive(Clone, Copy)]
pub(crate) struct Price {
    pub(crate) times: u64,
    pub(crate) extra: u64,
    pub(crate) unit: u64,
}

/// At the present ratio.
pub(crate) const PRESENT: Price = Price {
    times: 1,
    extra: 0,
    unit: 1,
};

/// At a lower ratio.
pub(crate) fn price_at(chain: Chain, aim: Aim) -> Price {
    Price {
        times: aim.edges,
        extra: chain
            .p
            .wrapping_mul(aim.edges)
            .wrapping_sub(chain.q.wrapping_mul(aim.tokens)),
        unit: chain.q,
    }
}

/// How far the filler must be from the drainer, for a ratio with so many further relay stations: the present ratio is
/// p/q, with its own price, and others are `aim`.
pub(crate) fn need(lags: &[u64], chain: Chain, price: Price, aim: Aim, more: u32) -> u64 {
    let edges = aim.tokens.wrapping_mul(u64::from(more).wrapping_add(1));
    let asked = get(lags, chain.filler, 0)
        .wrapping_mul(price.times)
        .wrapping_add(price.unit.wrapping_mul(edges));
    let tokens = aim.edges.wrapping_mul(chain.tokens);
    let has = get(lags, chain.drainer, 0)
        .wrapping_mul(price.times)
        .wrapping_add(price.unit.wrapping_mul(tokens));
    asked.saturating_sub(has)
}

/// The present ratio of a channel.
pub(crate) fn present(chain: Chain) -> Aim {
    Aim {
        tokens: chain.p,
        edges: chain.q,
    }
}

//! Shortest ways for all channels, and what they propose.

use crate::arcs::{Arcs, Potentials, arcs_of, potentials_of};
use crate::chain::{Chain, PRESENT, Price, chain_at, closed, count, need, present, price_at};
use crate::proposal::{Field, Proposal, Rise, label_next, no_proposal, raise_kept, turn_to};
use crate::search::{Search, distance, new_search, take_way};
use lid_cert::Cert;
use lid_graph::Graph;
use std::alloc::{AllocError, Global};

/// What is kept from one channel to the next: what edges cost, the channels as arcs, a search over them, and what was
/// proposed last.
#[derive(Drop)]
pub struct Ways {
    potentials: Potentials,
    arcs: Arcs,
    search: Search,
    pub proposal: Proposal,
}

/// A search of ways in the marked graph of a placement with so many relay stations on each channel, of which this is a
/// certificate.
///
/// # Errors
/// Where there is no memory.
pub fn new_ways(
    alloc: Global,
    graph: &Graph,
    cert: &Cert,
    relays: &[u32],
) -> Result<Ways, AllocError> {
    let channels = u32::try_from(relays.len()).unwrap_or(0);
    let potentials = potentials_of(alloc, graph, cert, relays)?;
    let arcs = arcs_of(alloc, graph, &potentials, channels)?;
    let search = new_search(alloc, graph)?;
    Ok(Ways {
        potentials,
        arcs,
        search,
        proposal: no_proposal(alloc, graph)?,
    })
}

/// Looks for ways of ever lower ratio with so many further relay stations, from the one that was found, until there is
/// none, and labels transitions for the last.
fn propose_next(
    ways: &mut Ways,
    graph: &Graph,
    cert: &Cert,
    chain: Chain,
    more: u32,
) -> Result<(), AllocError> {
    for _ in 0..64 {
        let firsts = &ways.potentials.firsts;
        take_way(&mut ways.proposal.way, &ways.search, graph, firsts, chain)?;
        let aim = closed(graph, &ways.proposal.way, chain, more);
        let price = price_at(chain, aim);
        let need = need(&ways.potentials.lags, chain, price, aim, more);
        if distance(&mut ways.search, &ways.arcs, chain, price, need)?.is_none() {
            return label_at(ways, graph, cert, chain, price, need);
        }
    }
    Ok(())
}

/// Labels transitions for the ratio with one more.
fn label_at(
    ways: &mut Ways,
    graph: &Graph,
    cert: &Cert,
    chain: Chain,
    price: Price,
    need: u64,
) -> Result<(), AllocError> {
    let field = Field {
        graph,
        potentials: &ways.potentials,
        arcs: &ways.arcs,
        search: &ways.search,
    };
    let rise = Rise {
        channel: chain.channel,
        price,
        need,
    };
    label_next(&mut ways.proposal, cert, &field, chain, rise)
}

/// Raises labels for the present ratio with so many further relay stations.
fn raise_present(
    ways: &mut Ways,
    graph: &Graph,
    chain: Chain,
    added: u32,
) -> Result<(), AllocError> {
    let need = need(&ways.potentials.lags, chain, PRESENT, present(chain), added);
    let rise = Rise {
        channel: chain.channel,
        price: PRESENT,
        need,
    };
    let field = Field {
        graph,
        potentials: &ways.potentials,
        arcs: &ways.arcs,
        search: &ways.search,
    };
    raise_kept(&mut ways.proposal, &field, rise)
}

/// Proposes how many further relay stations a channel takes, of `most` at most, with labels and a way that may show it.
///
/// # Errors
/// Where there is no memory.
pub fn propose(
    ways: &mut Ways,
    graph: &Graph,
    cert: &Cert,
    channel: u32,
    most: u32,
) -> Result<(), AllocError> {
    let chain = chain_at(graph, cert, &ways.potentials, channel);
    let lags = &ways.potentials.lags;
    turn_to(&mut ways.proposal, cert, chain.part, lags, PRESENT);
    let need = need(lags, chain, PRESENT, present(chain), most);
    let found = distance(&mut ways.search, &ways.arcs, chain, PRESENT, need)?;
    let added = match found {
        Some(far) => count(&ways.potentials.lags, chain, far).min(most),
        None => most,
    };
    ways.proposal.added = added;
    raise_present(ways, graph, chain, added)?;
    if added < most {
        propose_next(ways, graph, cert, chain, added.wrapping_add(1))?;
    }
    Ok(())
}

//! What is proposed of a channel.

use crate::arcs::{Arc, Arcs, Potentials, edge_on};
use crate::chain::{Chain, Price, quotient};
use crate::search::{Search, far};
use lid_cert::Cert;
use lid_graph::Graph;
use lid_rate_guess::{edge_at, get, put};
use std::alloc::{AllocError, Global};

/// How many further relay stations a channel is said to take, and what may show it. Labels are told of the
/// transitions of the channel's component.
#[derive(Drop)]
pub struct Proposal {
    pub added: u32,
    /// Labels that may show that the present ratio is kept, where some are added.
    pub kept: Vec<Option<u64>>,
    /// The edges of a way from where the last station is drained to where it is filled, which with one more may make a
    /// closed walk of the least ratio.
    pub way: Vec<u32>,
    /// Labels that may show that this ratio is kept with one more.
    pub next: Vec<Option<u64>>,
    /// The part whose transitions have labels, if there is one.
    part: Option<u32>,
    /// The transitions whose labels are not their lags.
    raised: Vec<u32>,
    /// The same of the labels with one more.
    others: Vec<u32>,
}

/// For each of so many transitions no label.
fn no_labels(alloc: Global, count: u32) -> Result<Vec<Option<u64>>, AllocError> {
    Vec::from_elem(alloc, None, count as usize)
}

/// Nothing proposed.
pub(crate) fn no_proposal(alloc: Global, graph: &Graph) -> Result<Proposal, AllocError> {
    Ok(Proposal {
        added: 0,
        kept: no_labels(alloc, graph.nodes)?,
        way: Vec::new(alloc),
        next: no_labels(alloc, graph.nodes)?,
        part: None,
        raised: Vec::new(alloc),
        others: Vec::new(alloc),
    })
}

/// The transitions of a part, by its number.
fn nodes_of(cert: &Cert, number: u32) -> &[u32] {
    match cert.parts.as_slice().get(number as usize) {
        Some(part) => part.nodes.as_slice(),
        None => &[],
    }
}

/// Takes the labels of some transitions away.
fn unlabel(labels: &mut [Option<u64>], nodes: &[u32]) {
    for v in nodes {
        put(labels, *v, None);
    }
}

/// Lets some transitions have as labels their lags, so many times in whole units.
fn label(labels: &mut [Option<u64>], nodes: &[u32], lags: &[u64], price: Price) {
    for v in nodes {
        let asked = get(lags, *v, 0).wrapping_mul(price.times);
        put(labels, *v, Some(quotient(asked, price.unit)));
    }
}

/// Lets the transitions of a part have their lags as labels, and no others.
pub(crate) fn turn_to(proposal: &mut Proposal, cert: &Cert, part: u32, lags: &[u64], price: Price) {
    if proposal.part == Some(part) {
        label(&mut proposal.kept, &proposal.raised, lags, price);
    } else {
        if let Some(before) = proposal.part {
            unlabel(&mut proposal.kept, nodes_of(cert, before));
            unlabel(&mut proposal.next, nodes_of(cert, before));
        }
        label(&mut proposal.kept, nodes_of(cert, part), lags, price);
        proposal.part = Some(part);
    }
    proposal.raised.clear();
}

/// What raises labels: how far the filler of a channel is to be from its drainer, at a price. What is nearer lacks the
/// rest.
#[derive(Clone, Copy)]
pub(crate) struct Rise {
    pub(crate) channel: u32,
    pub(crate) price: Price,
    pub(crate) need: u64,
}

/// What was searched, and over what.
#[derive(Clone, Copy)]
pub(crate) struct Field<'f> {
    pub(crate) graph: &'f Graph,
    pub(crate) potentials: &'f Potentials,
    pub(crate) arcs: &'f Arcs,
    pub(crate) search: &'f Search,
}

/// Raises the label of a transition that is so far.
fn raise_one(
    labels: &mut [Option<u64>],
    raised: &mut Vec<u32>,
    lags: &[u64],
    rise: Rise,
    v: u32,
    far: u64,
) -> Result<(), AllocError> {
    let asked = get(lags, v, 0).wrapping_mul(rise.price.times);
    let more = rise.need.wrapping_sub(far);
    let label = quotient(asked.wrapping_add(more), rise.price.unit);
    if label > get(labels, v, None).unwrap_or(0) {
        put(labels, v, Some(label));
        raised.push(v)?;
    }
    Ok(())
}

/// Raises the labels of the movers of a channel, from an end of it that is so far on.
fn raise_movers(
    labels: &mut [Option<u64>],
    raised: &mut Vec<u32>,
    field: &Field<'_>,
    rise: Rise,
    arc: Arc,
    from: u64,
) -> Result<(), AllocError> {
    let potentials = field.potentials;
    let mut far = from;
    for step in 0..arc.edges.saturating_sub(1) {
        let k = edge_on(&potentials.firsts, arc.channel, arc.is_back, step);
        let cost = rise.price.times.wrapping_mul(get(&potentials.costs, k, 0));
        far = far.wrapping_add(cost).wrapping_add(rise.price.extra);
        if far >= rise.need {
            return Ok(());
        }
        let v = edge_at(field.graph.edges.as_slice(), k).to;
        raise_one(labels, raised, &potentials.lags, rise, v, far)?;
    }
    Ok(())
}

/// Raises the label of a node that was settled, and of movers that are reached from it.
fn raise_from(
    labels: &mut [Option<u64>],
    raised: &mut Vec<u32>,
    field: &Field<'_>,
    rise: Rise,
    v: u32,
) -> Result<(), AllocError> {
    let far = far(field.search, v);
    if far >= rise.need {
        return Ok(());
    }
    raise_one(labels, raised, &field.potentials.lags, rise, v, far)?;
    for arc in field.arcs.out_of(v) {
        if arc.channel != rise.channel || !arc.is_back {
            raise_movers(labels, raised, field, rise, *arc, far)?;
        }
    }
    Ok(())
}

/// Raises labels by what was settled.
fn raise(
    labels: &mut [Option<u64>],
    raised: &mut Vec<u32>,
    field: &Field<'_>,
    rise: Rise,
) -> Result<(), AllocError> {
    for v in &field.search.order {
        raise_from(labels, raised, field, rise, *v)?;
    }
    Ok(())
}

/// Raises the labels for the present ratio, which are the lags before.
pub(crate) fn raise_kept(
    proposal: &mut Proposal,
    field: &Field<'_>,
    rise: Rise,
) -> Result<(), AllocError> {
    raise(&mut proposal.kept, &mut proposal.raised, field, rise)
}

/// Labels the transitions of a channel's part for a lower ratio.
pub(crate) fn label_next(
    proposal: &mut Proposal,
    cert: &Cert,
    field: &Field<'_>,
    chain: Chain,
    rise: Rise,
) -> Result<(), AllocError> {
    let nodes = nodes_of(cert, chain.part);
    label(
        &mut proposal.next,
        nodes,
        &field.potentials.lags,
        rise.price,
    );
    proposal.others.clear();
    raise(&mut proposal.next, &mut proposal.others, field, rise)
}

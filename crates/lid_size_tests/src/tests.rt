//! Sizes of the stations of a ring and of a netlist with two ways, worked out by hand from the ratios of
//! closed walks.

ghost use Rattle.std.specs.Prelude.{IfSome};
ghost use Rattle.lid_graph.specs.Rateable.{IsRateable};

use lid_graph::Graph;
use lid_rate::find;
use lid_rate_ratio::Ratio;
use lid_size::{SizeEnd, size, size_by_guess};
use lid_size_guess::{NextSize, SizeGuess, begin_sizes, propose_forwards, propose_next};
use lid_stations::{Placement, marking};
use lid_tests_fixtures::{DIAMOND, MADE, RING, placed_of};
use std::alloc::{AllocError, Global};

/// The two ways of `DIAMOND`, from a register that keeps its bit. The source has no channel, so it is a component
/// of its own, and the first one.
const APART: &[u8] =
    b".model dia\n.inputs x\n.outputs y\n.subckt reg d=a q=a\n.subckt xr a=a b=b q=y\n\
.subckt reg d=a q=b\n.end\n\
.model reg\n.inputs d\n.outputs q\n.latch d q 0\n.end\n\
.model xr\n.inputs a b\n.outputs q\n.names a b n\n10 1\n01 1\n.latch n q 0\n.end\n";

/// A netlist, its stations as a text, and the relay stations and capacities that are answered.
type Reached = (&'static [u8], &'static [u8], &'static [u32], &'static [u32]);

/// The ring is slowed by its relay station whatever the capacities, so 2 do everywhere. Three relay
/// stations on one way of the diamond want five places on the other, and the last station is the one
/// that gets them. Capacities that are given are not looked at.
static REACHED: [Reached; 5] = [
    (RING, b"lid-stations 1\n", &[0, 0, 0], &[2, 2, 2]),
    (
        RING,
        b"lid-stations 1\nu0 u1 0 1\n",
        &[1, 0, 0],
        &[2, 2, 2, 2],
    ),
    (
        DIAMOND,
        b"lid-stations 1\n",
        &[0, 0, 0, 0, 0],
        &[2, 2, 2, 2, 2],
    ),
    (
        DIAMOND,
        b"lid-stations 1\nu0 u1 0 3\n",
        &[0, 3, 0, 0, 0],
        &[2, 2, 2, 2, 2, 2, 2, 5],
    ),
    (
        DIAMOND,
        b"lid-stations 2\nu0 u1 0 3 16 16 16 16\nu0 u2 0 0 9\n",
        &[0, 3, 0, 0, 0],
        &[2, 2, 2, 2, 2, 2, 2, 5],
    ),
];

/// A netlist, its stations as a text with 16 places each, the forward ratio of their component, and the capacities.
type Wide = (&'static [u8], &'static [u8], u64, u64, &'static [u32]);

/// The ring, the diamond, and the generated system, whose loop of three stations has two tokens. Its capacities are
/// those that come first by the ratios of all its closed walks (`tools/dev/margins.py`).
static WIDE: [Wide; 3] = [
    (
        RING,
        b"lid-stations 2\nu0 u1 0 1 16 16\nu1 u0 0 0 16\nu1 out 0 0 16\n",
        2,
        3,
        &[2, 2, 2, 2],
    ),
    (
        DIAMOND,
        b"lid-stations 2\nin u0 0 0 16\nu0 u1 0 3 16 16 16 16\nu0 u2 0 0 16\nu1 out 0 0 16\nu2 u1 0 0 16\n",
        1,
        1,
        &[2, 2, 2, 2, 2, 2, 2, 5],
    ),
    (
        MADE,
        b"lid-stations 2\nin u0 0 0 16\nin u1 0 2 16 16 16\nin out 0 0 16\nu0 u1 0 0 16\nu0 out 0 1 16 16\n\
u1 u0 0 1 16 16\n",
        2,
        3,
        &[3, 2, 2, 2, 4, 2, 2, 2, 2, 2],
    ),
];

/// Stations of the generated system, more than a hundred each time. First its loop has twelve of them, and unequal ways to
/// `u1` and to the sink want room; then it has 106.
static MANY: [&[u8]; 2] = [
    b"lid-stations 1\nin u1 0 64\nu0 u1 0 2\nu0 out 0 30\nu1 u0 0 8\n",
    b"lid-stations 1\nin u1 0 64\nu0 u1 0 40\nu0 out 0 64\nu1 u0 0 64\n",
];

/// For each station the edges of ways that are told of it, and those that close them, and where they end: closed walks,
/// each the only one without a transition twice that stands against one place less, with 16 for all later stations. Of
/// the second in the generated system, which begins with five edges of the first, the others are told.
type Walks = (&'static [u32], &'static [u32]);

static WALKS: [Walks; 3] = [
    (&[], &[0, 0, 0, 0]),
    (&[11, 2, 4, 6, 8, 15], &[0, 0, 0, 0, 0, 0, 0, 6]),
    (
        &[2, 4, 6, 16, 18, 1, 12, 14, 9],
        &[6, 6, 6, 6, 9, 9, 9, 9, 9, 9],
    ),
];

/// The least transition of the component of each transition, how many edges the closed walks have that are guessed of
/// the components, and the greatest P*edges - Q*tokens over the forward walks that end at each transition, where P/Q is
/// the forward ratio.
type Forward = (&'static [u32], usize, &'static [u64]);

static FORWARDS: [Forward; 3] = [
    (&[0, 1, 1, 1, 1], 4, &[0, 1, 2, 1, 0]),
    (&[0, 0, 0, 0, 0, 0, 0, 0], 1, &[0, 0, 3, 0, 3, 0, 1, 2]),
    (&[0, 0, 0, 0, 0, 0, 0, 0], 3, &[0, 5, 4, 6, 0, 2, 4, 3]),
];

/// What sizing answers for a netlist and its stations.
fn sized(alloc: Global, netlist: &[u8], stations: &[u8]) -> Option<SizeEnd> {
    let Some(placed) = placed_of(alloc, netlist, stations) else {
        return None;
    };
    match size(alloc, &placed.system, &placed.placement) {
        Ok(end) => Some(end),
        Err(_) => None,
    }
}

/// Whether two lists are the same.
fn are_same(left: &[u32], right: &[u32]) -> bool {
    left == right
}

/// Whether a placement has these relay stations and capacities.
fn is_placed(placement: &Placement, relays: &[u32], caps: &[u32]) -> bool {
    are_same(placement.relays.as_slice(), relays) && are_same(placement.caps.as_slice(), caps)
}

/// Whether sizing answers these relay stations and capacities.
fn is_reached(alloc: Global, case: Reached) -> bool {
    let (netlist, stations, relays, caps) = case;
    match sized(alloc, netlist, stations) {
        Some(SizeEnd::Reached(placement)) => is_placed(&placement, relays, caps),
        _ => false,
    }
}

/// Whether the guess alone answers these relay stations and capacities.
fn is_reached_by_guess(alloc: Global, case: Reached) -> bool {
    let (netlist, stations, relays, caps) = case;
    let Some(placed) = placed_of(alloc, netlist, stations) else {
        return false;
    };
    match size_by_guess(alloc, &placed.system, &placed.placement) {
        Ok(Some(placement)) => is_placed(&placement, relays, caps),
        _ => false,
    }
}

/// Whether the guess alone answers something.
fn is_sized_by_guess(alloc: Global, netlist: &[u8], stations: &[u8]) -> bool {
    let Some(placed) = placed_of(alloc, netlist, stations) else {
        return false;
    };
    match size_by_guess(alloc, &placed.system, &placed.placement) {
        Ok(Some(_)) => true,
        _ => false,
    }
}

/// The part that falls short, its ratio and the one that is wanted.
type Falls = (u32, u64, u64, u64, u64);

/// What is told where no capacities reach.
fn falls(alloc: Global, netlist: &[u8], stations: &[u8]) -> Option<Falls> {
    match sized(alloc, netlist, stations) {
        Some(
            SizeEnd::Short {
                part,
                have_p,
                have_q,
                want_p,
                want_q,
                cert: _,
            },
        ) => Some((part, have_p, have_q, want_p, want_q)),
        _ => None,
    }
}

/// The marked graph of a netlist with stations as a text.
fn graph_of(alloc: Global, netlist: &[u8], stations: &[u8]) -> Option<Graph>
    ensures { IfSome result IsRateable }
{
    let Some(placed) = placed_of(alloc, netlist, stations) else {
        return None;
    };
    match marking(alloc, &placed.system, &placed.placement) {
        Ok(graph) => Some(graph),
        Err(_) => None,
    }
}

/// What is guessed of all stations: their capacities, and the edges that are told, station by station.
#[derive(Drop)]
struct ToldSizes {
    caps: Vec<u32>,
    edges: Vec<u32>,
    ends: Vec<u32>,
}

/// Adds what is guessed of the next station.
fn add(guessed: &mut ToldSizes, next: &NextSize) -> Result<(), AllocError> {
    guessed.caps.push(next.capacity)?;
    guessed.edges.extend_from_slice(&next.ways)?;
    guessed.edges.extend_from_slice(&next.closing)?;
    let end = u32::try_from(guessed.edges.len()).unwrap_or(0);
    guessed.ends.push(end)?;
    Ok(())
}

/// Adds what is guessed of so many stations.
fn add_all(
    guessed: &mut ToldSizes,
    guess: &mut SizeGuess,
    wants: &[Ratio],
    stations: u32,
) -> Result<(), AllocError> {
    for _ in 0..stations {
        propose_next(guess, wants)?;
        add(guessed, &guess.next)?;
    }
    Ok(())
}

/// The guess for so many stations of a graph, by the wanted ratios.
fn guess_by(
    alloc: Global,
    graph: &Graph,
    stations: u32,
    wants: &[Ratio],
    guessed: &mut ToldSizes,
) -> Result<(), AllocError>
    requires { IsRateable graph.now }
{
    let cert = find(alloc, graph)?;
    let mut guess = begin_sizes(alloc, graph, stations, &cert)?;
    add_all(guessed, &mut guess, wants, stations)
}

/// The guess for so many stations of a graph, where each component is to have the ratio p/q.
fn guess(
    alloc: Global,
    graph: &Graph,
    stations: u32,
    p: u64,
    q: u64,
) -> Result<ToldSizes, AllocError>
    requires { IsRateable graph.now }
{
    let wants = Vec::from_elem(alloc, Ratio { p, q }, graph.nodes as usize)?;
    let mut guessed = ToldSizes {
        caps: Vec::new(alloc),
        edges: Vec::new(alloc),
        ends: Vec::new(alloc),
    };
    guess_by(alloc, graph, stations, &wants, &mut guessed)?;
    Ok(guessed)
}

/// The guess for a netlist with stations as a text.
fn guessed(alloc: Global, case: Wide) -> Option<ToldSizes> {
    let (netlist, stations, p, q, caps) = case;
    let Some(graph) = graph_of(alloc, netlist, stations) else {
        return None;
    };
    let count = u32::try_from(caps.len()).unwrap_or(0);
    match guess(alloc, &graph, count, p, q) {
        Ok(sizes) => Some(sizes),
        Err(_) => None,
    }
}

/// Whether just the capacities are guessed, with these edges of closed walks.
fn is_guessed(alloc: Global, case: Wide, walks: Walks) -> bool {
    let (_, _, _, _, caps) = case;
    let (edges, ends) = walks;
    match guessed(alloc, case) {
        Some(sizes) => {
            are_same(&sizes.caps, caps)
                && are_same(&sizes.edges, edges)
                && are_same(&sizes.ends, ends)
        }
        None => false,
    }
}

/// Whether these labels are guessed, with closed walks of so many edges in all.
fn is_forward(alloc: Global, case: Wide, forward: Forward) -> bool {
    let (netlist, stations, _, _, caps) = case;
    let (least, steps, labels) = forward;
    let Some(graph) = graph_of(alloc, netlist, stations) else {
        return false;
    };
    let count = u32::try_from(caps.len()).unwrap_or(0);
    match propose_forwards(alloc, &graph, count, least) {
        Ok(found) => found.walks.len() == steps && found.labels.as_slice() == labels,
        Err(_) => false,
    }
}

#[test]
fn the_first_capacities_that_reach(rt: HostRuntime) {
    for case in &REACHED {
        assert!(rt; is_reached(rt.alloc(), *case));
    }
}

#[test]
fn the_test_of_the_guess_accepts_them(rt: HostRuntime) {
    for case in &REACHED {
        assert!(rt; is_reached_by_guess(rt.alloc(), *case));
    }
    let (netlist, stations, _, _, caps) = WIDE[2];
    let case: Reached = (netlist, stations, &[0, 2, 0, 0, 1, 1], caps);
    assert!(rt; is_reached_by_guess(rt.alloc(), case));
    for text in &MANY {
        assert!(rt; is_sized_by_guess(rt.alloc(), MADE, *text));
    }
}

#[test]
fn a_long_way_falls_short(rt: HostRuntime) {
    let told = falls(rt.alloc(), DIAMOND, b"lid-stations 1\nu0 u1 0 29\n");
    assert!(rt; told == Some((0, 31, 32, 1, 1)));
}

#[test]
fn the_second_part_falls_short(rt: HostRuntime) {
    let told = falls(rt.alloc(), APART, b"lid-stations 1\nu0 u1 0 29\n");
    assert!(rt; told == Some((1, 31, 32, 1, 1)));
}

#[test]
fn no_capacity_of_a_ring_is_guessed_above_two(rt: HostRuntime) {
    assert!(rt; is_guessed(rt.alloc(), WIDE[0], WALKS[0]));
}

#[test]
fn the_capacities_of_a_diamond_are_guessed(rt: HostRuntime) {
    assert!(rt; is_guessed(rt.alloc(), WIDE[1], WALKS[1]));
}

#[test]
fn the_capacities_of_a_generated_system_are_guessed(rt: HostRuntime) {
    assert!(rt; is_guessed(rt.alloc(), WIDE[2], WALKS[2]));
}

#[test]
fn forward_ratios_are_guessed(rt: HostRuntime) {
    assert!(rt; is_forward(rt.alloc(), WIDE[0], FORWARDS[0]));
    assert!(rt; is_forward(rt.alloc(), WIDE[1], FORWARDS[1]));
    assert!(rt; is_forward(rt.alloc(), WIDE[2], FORWARDS[2]));
}

//! Guesses of the ratios of large graphs: the test of a guess accepts them, and few rounds of policy iteration make them.
//! Where it did not, a search of cubic time would answer in their place.

ghost use Rattle.lid_graph.specs.Rateable.{IsRateable};

use crate::tests::designs::{Station, graph_of};
use crate::tests::rate::{draw, is_taken};
use lid_graph::Graph;
use lid_rate_guess::{Guess, propose};
use lid_rate_ratio::judge;
use std::alloc::{AllocError, Global};

/// The stations of some channels, the number of the next mover, and what relay stations are drawn by.
#[derive(Drop)]
struct Laid {
    stations: Vec<Station>,
    next: u32,
    state: u32,
}

/// No channel, between so many shells.
fn new_laid(alloc: Global, shells: u32) -> Laid {
    Laid {
        stations: Vec::new(alloc),
        next: shells,
        state: 1,
    }
}

/// Lays a channel with so many relay stations.
fn lay(laid: &mut Laid, from: u32, to: u32, relays: u32) -> Result<(), AllocError> {
    let mut filler = from;
    let mut tokens = 1;
    for _ in 0..relays {
        let mover = laid.next;
        laid.stations.push((filler, mover, tokens, 2))?;
        laid.next = mover.saturating_add(1);
        filler = mover;
        tokens = 0;
    }
    laid.stations.push((filler, to, tokens, 2))?;
    Ok(())
}

/// Lays a channel with less than so many relay stations, by chance.
fn lay_some(laid: &mut Laid, from: u32, to: u32, below: u32) -> Result<(), AllocError> {
    let relays = draw(&mut laid.state, below);
    lay(laid, from, to, relays)
}

/// The number of the shell at a place of a ring in which each is numbered by so much more than the one before.
fn number_of(place: u32, step: u32, shells: u32) -> u32 {
    if shells == 0 {
        0
    } else {
        place.wrapping_mul(step) % shells
    }
}

/// Shells in a ring, each of which is numbered by so much more than the one before.
fn ring_of(alloc: Global, shells: u32, step: u32) -> Result<Laid, AllocError> {
    let mut laid = new_laid(alloc, shells);
    for place in 0..shells {
        let from = number_of(place, step, shells);
        let to = number_of(place.wrapping_add(1), step, shells);
        lay_some(&mut laid, from, to, 16)?;
    }
    Ok(laid)
}

/// Two rings of shells that are numbered so, and channels between them, from the one and from the other in turn.
fn ladder_of(alloc: Global, shells: u32, step: u32) -> Result<Laid, AllocError> {
    let mut laid = new_laid(alloc, shells.saturating_mul(2));
    for place in 0..shells {
        let from = number_of(place, step, shells);
        let to = number_of(place.wrapping_add(1), step, shells);
        lay_some(&mut laid, from, to, 15)?;
        lay_some(
            &mut laid,
            shells.saturating_add(from),
            shells.saturating_add(to),
            15,
        )?;
        if place % 2 == 0 {
            lay_some(&mut laid, from, shells.saturating_add(from), 15)?;
        } else {
            lay_some(&mut laid, shells.saturating_add(from), from, 15)?;
        }
    }
    Ok(laid)
}

/// Two ways of so many channels from shell 0, with so many relay stations on each, and as many shells that read the ends
/// of both, the one by one relay station.
fn fan_of(alloc: Global, way: u32, relays: u32) -> Result<Laid, AllocError> {
    let second = way.saturating_add(1);
    let readers = second.saturating_add(way);
    let mut laid = new_laid(alloc, readers.saturating_add(way));
    for place in 0..way {
        lay(&mut laid, place, place.saturating_add(1), relays)?;
        let from = if place == 0 {
            0
        } else {
            way.saturating_add(place)
        };
        lay(&mut laid, from, second.saturating_add(place), relays)?;
    }
    for reader in 0..way {
        lay(&mut laid, way, readers.saturating_add(reader), 1)?;
        lay(
            &mut laid,
            way.saturating_add(way),
            readers.saturating_add(reader),
            0,
        )?;
    }
    Ok(laid)
}

/// So many blocks in a ring, in each of which three ways meet again, two of them with a shell between.
fn blocks_of(alloc: Global, blocks: u32) -> Result<Laid, AllocError> {
    let mut laid = new_laid(alloc, blocks.saturating_mul(3));
    for block in 0..blocks {
        let at = block.saturating_mul(3);
        let end = if block.saturating_add(1) < blocks {
            at.saturating_add(3)
        } else {
            0
        };
        for between in 1..3u32 {
            lay_some(&mut laid, at, at.saturating_add(between), 6)?;
            lay_some(&mut laid, at.saturating_add(between), end, 6)?;
        }
        lay_some(&mut laid, at, end, 6)?;
    }
    Ok(laid)
}

/// Whether the test of a guess accepts it.
fn is_accepted(alloc: Global, graph: &Graph, guess: &Guess) -> bool
    requires { IsRateable graph.now }
{
    match judge(alloc, graph, guess) {
        Ok(found) => found.is_some(),
        Err(_) => false,
    }
}

/// Whether the guess for a graph is accepted and took at most so many rounds.
fn is_guessed(alloc: Global, graph: &Graph, most: u32) -> bool
    requires { IsRateable graph.now }
{
    match propose(alloc, graph) {
        Ok(guess) => guess.rounds <= most && is_accepted(alloc, graph, &guess),
        Err(_) => false,
    }
}

/// The same of what was laid.
fn is_found(alloc: Global, laid: Result<Laid, AllocError>, most: u32) -> bool {
    let Ok(laid) = laid else {
        return false;
    };
    let pairs = u32::try_from(laid.stations.len())
        .unwrap_or(0)
        .saturating_mul(2);
    let Ok(graph) = graph_of(alloc, laid.next, laid.stations.as_slice()) else {
        return false;
    };
    is_taken(alloc, &graph, pairs) == Ok(true) && is_guessed(alloc, &graph, most)
}

#[test]
fn rings_take_few_rounds(rt: HostRuntime) {
    assert!(rt; is_found(rt.alloc(), ring_of(rt.alloc(), 300, 1), 4));
    assert!(rt; is_found(rt.alloc(), ring_of(rt.alloc(), 300, 7), 4));
    assert!(rt; is_found(rt.alloc(), ring_of(rt.alloc(), 4_000, 7), 4));
}

#[test]
fn ladders_take_few_rounds(rt: HostRuntime) {
    assert!(rt; is_found(rt.alloc(), ladder_of(rt.alloc(), 150, 7), 20));
    assert!(rt; is_found(rt.alloc(), ladder_of(rt.alloc(), 2_000, 7), 40));
}

#[test]
fn fans_take_few_rounds(rt: HostRuntime) {
    assert!(rt; is_found(rt.alloc(), fan_of(rt.alloc(), 30, 8), 8));
    assert!(rt; is_found(rt.alloc(), fan_of(rt.alloc(), 300, 64), 8));
}

#[test]
fn blocks_take_few_rounds(rt: HostRuntime) {
    assert!(rt; is_found(rt.alloc(), blocks_of(rt.alloc(), 60), 20));
    assert!(rt; is_found(rt.alloc(), blocks_of(rt.alloc(), 1_300), 40));
}

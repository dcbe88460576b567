//! The slack of the channels of netlists, with stations as texts.

ghost use Rattle.std.specs.Prelude.{◌<◌, length};
ghost use Rattle.lid_slack.specs.Told.{IsCertified};
ghost use Rattle.lid_stations.specs.Placed.{links_in};

use lid_rate_ratio::Ratio;
use lid_slack::{
    Certified, Ways, certify, new_ways, propose_slack, slack, slack_and_next, slack_by_ways,
    slack_shown,
};
use lid_stations::Placed;
use lid_tests_fixtures::{DIAMOND, MADE, RING, SystemAndStations, placed_of};
use std::alloc::Global;

/// The slack of a channel, and the ratio with one more, or 0/0.
type Case = (u32, u32, u64, u64);

static RING_CASES: [Case; 3] = [(0, 0, 1, 2), (1, 0, 1, 2), (2, 64, 0, 0)];

static TWO_WAYS_CASES: [Case; 5] = [
    (0, 64, 0, 0),
    (1, 0, 3, 7),
    (2, 12, 9, 19),
    (3, 64, 0, 0),
    (4, 12, 9, 19),
];

/// With 64 relay stations on `u0 u1 0` and `u1 out 0` there is no room there. On `u1 u0 0` each further one adds
/// an edge to the ring of 66 edges and 2 tokens.
static FULL_CASES: [Case; 3] = [(0, 0, 0, 0), (1, 0, 2, 67), (2, 0, 0, 0)];

/// The ratios by all closed walks, with each number of further relay stations (`tools/dev/margins.py`).
static MADE_CASES: [Case; 6] = [
    (0, 2, 3, 7),
    (1, 0, 3, 7),
    (2, 6, 5, 11),
    (3, 1, 2, 5),
    (4, 0, 4, 9),
    (5, 0, 3, 7),
];

/// The last station of a channel, the room there, and its slack.
type Guess = (u32, u32, u32);

static RING_GUESSES: [Guess; 3] = [(1, 63, 0), (2, 64, 0), (3, 64, 64)];

static TWO_WAYS_GUESSES: [Guess; 5] = [
    (0, 64, 64),
    (4, 61, 0),
    (5, 64, 12),
    (6, 64, 64),
    (7, 64, 12),
];

static MADE_GUESSES: [Guess; 6] = [
    (0, 64, 2),
    (3, 62, 0),
    (4, 64, 6),
    (5, 64, 1),
    (7, 63, 0),
    (9, 63, 0),
];

/// Whether the ratio with one more is this, where 0/0 stands for none.
fn is_next(next: Option<Ratio>, p: u64, q: u64) -> bool {
    match next {
        Some(ratio) => ratio.p == p && ratio.q == q,
        None => p == 0 && q == 0,
    }
}

/// Whether `slack` tells so many further relay stations.
fn is_slack(alloc: Global, placed: &Placed<'_>, channel: u32, added: u32) -> bool
    requires { channel < length placed.now.system.channels }
{
    match slack(alloc, placed.system, placed.placement, channel) {
        Ok(slack) => slack.added == added,
        Err(_) => false,
    }
}

/// Whether a channel has such a slack, with a walk where there is a ratio with one more.
fn has_slack(alloc: Global, placed: &Placed<'_>, case: Case) -> bool {
    let (channel, added, p, q) = case;
    if channel as usize >= placed.system.channels.len() {
        return false;
    }
    if !is_slack(alloc, placed, channel, added) {
        return false;
    }
    match slack_and_next(alloc, placed, channel) {
        Ok(all) => {
            all.slack.added == added
                && all.slack.against.is_some() == all.next.is_some()
                && is_next(all.next, p, q)
        }
        Err(_) => false,
    }
}

/// Whether each of some channels has such a slack.
fn have_slacks(alloc: Global, placed: &Placed<'_>, cases: &[Case]) -> bool {
    for case in cases {
        if !has_slack(alloc, placed, *case) {
            return false;
        }
    }
    true
}

/// Whether what is proposed of a channel by shortest ways shows such a slack, so that no certificates are asked, and
/// whether `slack_by_ways` tells it.
fn is_shown(
    alloc: Global,
    placed: &Placed<'_>,
    present: &Certified,
    ways: &mut Ways,
    case: Case,
) -> bool
    requires { IsCertified (links_in placed.now) placed.now.placement present.now }
{
    let (channel, added, p, q) = case;
    if channel as usize >= placed.system.channels.len() {
        return false;
    }
    let Ok(told) = slack_by_ways(alloc, placed, present, channel, ways) else {
        return false;
    };
    match slack_shown(placed, present, channel, &ways.proposal) {
        Some(found) => {
            found.added == added
                && is_next(found.next, p, q)
                && told.added == added
                && is_next(told.next, p, q)
        }
        None => false,
    }
}

/// Whether each of some channels has such a slack by shortest ways, one after the other.
fn are_shown(alloc: Global, placed: &Placed<'_>, cases: &[Case]) -> bool {
    let Ok(present) = certify(alloc, placed) else {
        return false;
    };
    let Ok(mut ways) = new_ways(
        alloc,
        &present.graph,
        &present.cert,
        placed.placement.relays.as_slice(),
    ) else {
        return false;
    };
    for case in cases {
        if !is_shown(alloc, placed, &present, &mut ways, *case) {
            return false;
        }
    }
    true
}

/// The same of a netlist with stations as a text.
fn are_shown_ways(alloc: Global, netlist: &[u8], stations: &[u8], cases: &[Case]) -> bool {
    match placed_of(alloc, netlist, stations) {
        Some(SystemAndStations { system, placement }) => {
            let placed = Placed {
                system: &system,
                placement: &placement,
            };
            are_shown(alloc, &placed, cases)
        }
        None => false,
    }
}

/// The same of certificates.
fn are_slacks(alloc: Global, netlist: &[u8], stations: &[u8], cases: &[Case]) -> bool {
    match placed_of(alloc, netlist, stations) {
        Some(SystemAndStations { system, placement }) => {
            let placed = Placed {
                system: &system,
                placement: &placement,
            };
            have_slacks(alloc, &placed, cases)
        }
        None => false,
    }
}

/// The certificate of a netlist with stations as a text.
fn certified(alloc: Global, netlist: &[u8], stations: &[u8]) -> Option<Certified> {
    let Some(SystemAndStations { system, placement }) = placed_of(alloc, netlist, stations) else {
        return None;
    };
    let placed = Placed {
        system: &system,
        placement: &placement,
    };
    match certify(alloc, &placed) {
        Ok(present) => Some(present),
        Err(_) => None,
    }
}

/// Whether the guess of a slack, in this part of the certificate, is the slack.
fn is_guessed(alloc: Global, present: &Certified, part: usize, case: Guess) -> bool {
    let (station, room, added) = case;
    let Some(part) = present.cert.parts.as_slice().get(part) else {
        return false;
    };
    let ratio = Ratio {
        p: part.p,
        q: part.q,
    };
    match propose_slack(alloc, &present.graph, part, station, ratio, room) {
        Ok(guess) => guess == added,
        Err(_) => false,
    }
}

/// The same of several channels of a netlist with stations as a text.
fn are_guessed(
    alloc: Global,
    netlist: &[u8],
    stations: &[u8],
    part: usize,
    cases: &[Guess],
) -> bool {
    let Some(present) = certified(alloc, netlist, stations) else {
        return false;
    };
    for case in cases {
        if !is_guessed(alloc, &present, part, *case) {
            return false;
        }
    }
    true
}

#[test]
fn a_ring_has_no_slack(rt: HostRuntime) {
    assert!(rt;
        are_slacks(
            rt.alloc(),
            RING,
            b"lid-stations 1\nu0 u1 0 1\n",
            &RING_CASES
        )
    );
}

#[test]
fn the_shorter_of_two_ways_has_slack(rt: HostRuntime) {
    assert!(rt;
        are_slacks(
            rt.alloc(),
            DIAMOND,
            b"lid-stations 1\nu0 u1 0 3\n",
            &TWO_WAYS_CASES
        )
    );
}

#[test]
fn a_full_channel_has_no_slack(rt: HostRuntime) {
    assert!(rt;
        are_slacks(
            rt.alloc(),
            RING,
            b"lid-stations 1\nu0 u1 0 64\nu1 out 0 64\n",
            &FULL_CASES
        )
    );
}

#[test]
fn a_generated_system_has_slack(rt: HostRuntime) {
    assert!(rt;
        are_slacks(
            rt.alloc(),
            MADE,
            b"lid-stations 1\nin u1 0 2\nu0 out 0 1\nu1 u0 0 1\n",
            &MADE_CASES
        )
    );
}

#[test]
fn no_slack_is_guessed_on_a_ring(rt: HostRuntime) {
    assert!(rt;
        are_guessed(
            rt.alloc(),
            RING,
            b"lid-stations 1\nu0 u1 0 1\n",
            1,
            &RING_GUESSES
        )
    );
}

#[test]
fn the_slack_of_the_shorter_way_is_guessed(rt: HostRuntime) {
    assert!(rt;
        are_guessed(
            rt.alloc(),
            DIAMOND,
            b"lid-stations 1\nu0 u1 0 3\n",
            0,
            &TWO_WAYS_GUESSES
        )
    );
}

#[test]
fn the_slack_of_a_generated_system_is_guessed(rt: HostRuntime) {
    assert!(rt;
        are_guessed(
            rt.alloc(),
            MADE,
            b"lid-stations 1\nin u1 0 2\nu0 out 0 1\nu1 u0 0 1\n",
            0,
            &MADE_GUESSES
        )
    );
}

/// Whether ways show the slacks of all systems above.
fn are_all_shown(alloc: Global) -> bool {
    are_shown_ways(alloc, RING, b"lid-stations 1\nu0 u1 0 1\n", &RING_CASES)
        && are_shown_ways(
            alloc,
            DIAMOND,
            b"lid-stations 1\nu0 u1 0 3\n",
            &TWO_WAYS_CASES,
        )
        && are_shown_ways(
            alloc,
            RING,
            b"lid-stations 1\nu0 u1 0 64\nu1 out 0 64\n",
            &FULL_CASES,
        )
        && are_shown_ways(
            alloc,
            MADE,
            b"lid-stations 1\nin u1 0 2\nu0 out 0 1\nu1 u0 0 1\n",
            &MADE_CASES,
        )
}

#[test]
fn ways_show_slacks(rt: HostRuntime) {
    assert!(rt; are_all_shown(rt.alloc()));
}

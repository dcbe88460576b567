//! A board of plain stations, for one thread.

ghost use Rattle.std.specs.Prelude.{◌≡◌, ℕ, ◌+◌, ◌*◌, ◌%◌, ◌/◌, ◌^◌, ◌<◌, ◌≤◌, ◌-◌, cond, nat_lt, List, length, get_or, IfSome, IfOk, None};
ghost use base.Stored.{gnil};
ghost use Rattle.lid_station.specs.Plain.{plain_ends, PlainStands, PlainAdmits};
ghost use Rattle.lid_station.specs.PlainLaws.{plain_next, plain_within};
ghost use Rattle.std.specs.List.{All};
ghost use Rattle.lid_station.specs.Starts.{IsStart, AreStarts, Begin};

use crate::looks::{InLook, OutLook};
use crate::pair::Pair;
use crate::stations::Stations;
use std::alloc::{AllocError, Global};

/// The full bit of a place.
const FULL: u64 = 1 << 31;

/// What bit 32 stands for, the lowest bit of an odd place.
const ODD: u64 = 1 << 32;

/// Plain stations, which one thread steps. All their ends are served; misses are not counted, and steps are not noted.
///
/// They carry any streams of 31-bit tokens, each of fewer than 2^64, whose tokens from the number
/// taken up to the number put are those that the station holds. A token is admitted where it is
/// below 2^31 and fewer than 2^64 - 1 were put.
#[derive(Drop)]
pub struct PlainBoard {
    /// The stations in order of their numbers.
    pub pairs: Vec<Pair>,
}

/// The place of a token.
fn place_of(pair: &Pair, token: u64) -> usize
    ensures { result ≡ token % length pair.now.places.items }
{
    (token % pair.places.len() as u64) as usize
}

/// What a word shows of a place that is full, in its lower half; 0 past the last place.
fn shown(pair: &Pair, place: usize) -> u64
    ensures { result ≡ cond (nat_lt place (length pair.now.places.items)) (2147483648 + get_or pair.now.places.items place 0) 0 }
{
    if place < pair.places.len() {
        FULL + u64::from(pair.places[place])
    } else {
        0
    }
}

/// A station that starts with a token, or none.
fn start_pair(alloc: Global, first: Option<u32>, cap: u32) -> Result<Pair, AllocError>
    requires two { 2 ≤ cap }
    requires few { cap ≤ 16 }
    requires small { IfSome first (λ token. token < 2 ^ 31) }
    ensures { IfOk result (λ pair. IsStart first cap pair) }
{
    let mut places = vec![in alloc; 0; cap as usize]?;
    let mut put = 0;
    if let Some(token) = first {
        places[0] = token;
        put = 1;
    }
    Ok(Pair {
        put,
        taken: 0,
        places,
        token_seen: false,
        room_seen: false,
    })
}

impl PlainBoard {
    /// Starts one station for each entry, with its start token, if any, and its capacity. There are
    /// as many capacities as start tokens, fewer than 2^32; start tokens are below 2^31, capacities
    /// lie in 2 to 16.
    ///
    /// # Errors
    /// Memory is wanting.
    pub fn start(
        alloc: Global,
        firsts: &[Option<u32>],
        caps: &[u32],
    ) -> Result<PlainBoard, AllocError>
        requires many { length firsts.now < 2 ^ 32 }
        requires same { length caps.now ≡ length firsts.now }
        requires two { All (λ cap. 2 ≤ cap) caps.now }
        requires few { All (λ cap. cap ≤ 16) caps.now }
        requires small { All (λ first. IfSome first (λ token. token < 2 ^ 31)) firsts.now }
        ensures started { IfOk result (λ board. AreStarts firsts.now caps.now board.pairs.items) }
        ensures stands { IfOk result (λ board. (streams : ℕ → List ℕ) → Begin firsts.now streams → PlainStands board.pairs.items streams) }
    {
        let mut pairs = Vec::with_capacity(alloc, firsts.len())?;
        for (station, first) in firsts.iter().enumerate() {
            pairs.push(start_pair(alloc, *first, caps[station])?)?;
        }
        Ok(PlainBoard { pairs })
    }
}

impl Stations for PlainBoard {
    ghost ends = { λ board. plain_ends board.pairs.items };

    ghost stands = { λ board. PlainStands board.pairs.items };

    ghost admits = { λ board. PlainAdmits board.pairs.items };

    ghost steps = { λ _. None };

    ghost identity = { λ _. gnil };

    fn look_in(&mut self, station: u32) -> InLook {
        let pair = &mut self.pairs[station as usize];
        if pair.taken < pair.put {
            pair.token_seen = true;
            InLook::Token(pair.places[place_of(pair, pair.taken)])
        } else {
            InLook::Void(0)
        }
    }

    fn look_out(&mut self, station: u32) -> OutLook {
        let pair = &mut self.pairs[station as usize];
        if pair.put - pair.taken < pair.places.len() as u64 {
            pair.room_seen = true;
            OutLook::Room
        } else {
            let even = place_of(pair, pair.put) / 2 * 2;
            OutLook::Stop(shown(pair, even) + ODD * shown(pair, even + 1))
        }
    }

    fn take(&mut self, station: u32) -> u32 {
        let pair = &mut self.pairs[station as usize];
        let place = place_of(pair, pair.taken);
        let _put = pair.put;
        pair.taken += 1;
        pair.token_seen = false;
        pair.places[place]
    }

    fn put(&mut self, station: u32, token: u32) {
        let pair = &mut self.pairs[station as usize];
        let place = place_of(pair, pair.put);
        pair.places[place] = token;
        pair.put += 1;
        pair.room_seen = false;
    }

    ghost next_is_admitted = { λ board. plain_next board.pairs.items };

    ghost passed_within = { λ board. plain_within board.pairs.items };
}

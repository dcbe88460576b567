//! The four calls of a hand on a board.

ghost use Rattle.std.specs.Prelude.{◌≡◌, ℕ, ◌/◌, ◌+◌, ◌-◌, ◌^◌, ◌<◌, ◌∷◌, true, Some, slice_get, ◌↔◌};
ghost use Rattle.lid_station.specs.Boards.{Facts, fill, drain, advanced, Changes, looked_in, looked_out, IsToken, IsVoid, IsRoom, IsStop, FindsIn, FindsOut, HasSmallToken, TellsNothing, TellsFull, HasFilled, HasDrained};
ghost use Rattle.lid_board.specs.Owners.{IsOf, IsOwned, HasEnd, IsSpot, ends_of, steps_of, start_ends};
ghost use Rattle.lid_board.specs.Relation.{stream_of};
ghost use Rattle.lid_board.specs.Views.{facts, facts_at, held};

use crate::board::Board;
use crate::halves::{FULL, bits_beside, bits_of, half_at};
use crate::hand::Hand;
use crate::steps::{and_as, load_as, or_as};
use lid_station::{InLook, OutLook};
use std::marker::Brand;

/// Where the next token of an end goes or comes from.
#[derive(Clone, Copy)]
pub(crate) struct Spot {
    /// How many tokens passed the end.
    pub(crate) passed: u64,
    /// The place of the next token.
    pub(crate) place: u64,
    /// The word that has it.
    pub(crate) word: usize,
}

impl Board {
    /// Where the next token of an end goes or comes from.
    pub(crate) fn spot(&self, hand: &Hand, station: u32, end: usize) -> Spot
        requires has_end { HasEnd hand.now self.now end }
        requires side { end / 2 ≡ station }
        ensures spot { IsSpot (start_ends self.now) station (held (ends_of hand.now) end) result }
        ensures inside { result.word < self.now.table.shared.table_id.words }
    {
        let passed = hand.ends[end].unwrap_or(0);
        let place = passed % u64::from(self.caps[station as usize]);
        Spot {
            passed,
            place,
            word: self.firsts[station as usize] + (place / 2) as usize,
        }
    }

    /// Looks for a token at a drained end of the hand, by one load.
    #[tactic(auto, using(crate::proofs::Calling::tied_in))]
    pub(crate) fn look_in(&self, hand: &mut Hand, station: u32) -> InLook
        requires has_end { HasEnd hand.old self.now (drain station) }
        ensures of { IsOf hand.new self.now }
        ensures changed { Changes (facts_at (ends_of hand.old)) (drain station) (looked_in result) (facts_at (ends_of hand.new)) }
        ensures steps { steps_of hand.new ≡ drain station ∷ steps_of hand.old }
        ensures found { FindsIn result (facts (held (ends_of hand.old) (drain station))) (stream_of (start_ends self.now) station) }
        ensures small { HasSmallToken result }
        ensures nothing { TellsNothing result }
        ensures drained { HasDrained result (facts (held (ends_of hand.old) (drain station))) }
        ensures again { (held (ends_of hand.old) (drain station)).mark ≡ true → IsToken result }
        ensures exact { IsOwned (ends_of hand.old) (fill station)
            → (IsVoid result ↔ (held (ends_of hand.old) (fill station)).passed ≡ (held (ends_of hand.old) (drain station)).passed) }
    {
        let spot = self.spot(hand, station, 2 * station as usize + 1);
        let cells = &self.table.shared;
        let found = load_as::<Brand>(cells, &mut hand.seat, spot.word, station, spot.place);
        let half = half_at(spot.place, found);
        if half == 0 {
            InLook::Void(found)
        } else {
            InLook::Token((half - FULL) as u32)
        }
    }

    /// Looks for room at a filled end of the hand, by one load.
    #[tactic(auto, using(crate::proofs::Calling::tied_out))]
    pub(crate) fn look_out(&self, hand: &mut Hand, station: u32) -> OutLook
        requires has_end { HasEnd hand.old self.now (fill station) }
        ensures of { IsOf hand.new self.now }
        ensures changed { Changes (facts_at (ends_of hand.old)) (fill station) (looked_out result) (facts_at (ends_of hand.new)) }
        ensures steps { steps_of hand.new ≡ fill station ∷ steps_of hand.old }
        ensures found { FindsOut result (facts (held (ends_of hand.old) (fill station))) (stream_of (start_ends self.now) station) }
        ensures filled { HasFilled result (facts (held (ends_of hand.old) (fill station))) }
        ensures full { TellsFull result (facts (held (ends_of hand.old) (fill station))) }
        ensures again { (held (ends_of hand.old) (fill station)).mark ≡ true → IsRoom result }
        ensures exact { IsOwned (ends_of hand.old) (drain station)
            → (IsStop result ↔ (held (ends_of hand.old) (fill station)).passed ≡ (held (ends_of hand.old) (drain station)).passed
            + (held (ends_of hand.old) (fill station)).cap) }
    {
        let spot = self.spot(hand, station, 2 * station as usize);
        let cells = &self.table.shared;
        let found = load_as::<Brand>(cells, &mut hand.seat, spot.word, station, spot.place);
        if half_at(spot.place, found) == 0 {
            OutLook::Room
        } else {
            OutLook::Stop(found)
        }
    }

    /// Takes the token that was seen, by one `fetch_and`.
    pub(crate) fn take(&self, hand: &mut Hand, station: u32) -> u32
        requires has_end { HasEnd hand.old self.now (drain station) }
        requires seen { (held (ends_of hand.old) (drain station)).mark ≡ true }
        ensures of { IsOf hand.new self.now }
        ensures changed { Changes (facts_at (ends_of hand.old)) (drain station) advanced (facts_at (ends_of hand.new)) }
        ensures steps { steps_of hand.new ≡ drain station ∷ steps_of hand.old }
        ensures token { slice_get (stream_of (start_ends self.now) station) (held (ends_of hand.old) (drain station)).passed ≡ Some result }
        ensures small { result < 2 ^ 31 }
    {
        let end = 2 * station as usize + 1;
        let spot = self.spot(hand, station, end);
        let cells = &self.table.shared;
        let bits = bits_beside(spot.place);
        let found = and_as::<Brand>(cells, &mut hand.seat, spot.word, bits, station, spot.place);
        hand.ends[end] = Some(spot.passed + 1);
        (half_at(spot.place, found) - FULL) as u32
    }

    /// Puts the stream's next token into the room that was seen, by one `fetch_or`.
    pub(crate) fn put(&self, hand: &mut Hand, station: u32, token: u32)
        requires has_end { HasEnd hand.old self.now (fill station) }
        requires seen { (held (ends_of hand.old) (fill station)).mark ≡ true }
        requires small { token < 2 ^ 31 }
        requires next { slice_get (stream_of (start_ends self.now) station) (held (ends_of hand.old) (fill station)).passed ≡ Some token }
        ensures of { IsOf hand.new self.now }
        ensures changed { Changes (facts_at (ends_of hand.old)) (fill station) advanced (facts_at (ends_of hand.new)) }
        ensures steps { steps_of hand.new ≡ fill station ∷ steps_of hand.old }
    {
        let end = 2 * station as usize;
        let spot = self.spot(hand, station, end);
        let cells = &self.table.shared;
        let bits = bits_of(spot.place, token);
        or_as::<Brand>(cells, &mut hand.seat, spot.word, bits, station);
        hand.ends[end] = Some(spot.passed + 1);
    }
}

//! A hand at its board.

ghost use Rattle.std.specs.Prelude.{Some};
ghost use Rattle.lid_board.specs.Owners.{IsOf, ends_of, steps_of, start_ends, identity_of};
ghost use Rattle.lid_board.specs.Standing.{AreStreamsOf, Admits, attended_next, attended_within};
ghost use Rattle.lid_board.specs.Views.{facts_at};

use crate::board::Board;
use crate::hand::Hand;
use lid_station::{InLook, OutLook, Stations};

/// A hand at the board that it is of: stations of which the hand's ends are served.
///
/// It stands for the streams of the board alone, and a station admits the next token of its stream.
/// Each call is one step on one word; misses are counted, and steps are noted.
#[derive(Drop)]
pub struct Attended<'b> {
    /// The board.
    pub board: &'b Board,
    /// The hand, of that board.
    pub hand: &'b mut Hand,
    ghost of_board: { IsOf hand.now board.now },
}

impl<'b> Stations for Attended<'b> {
    ghost ends = { λ a. facts_at (ends_of a.hand.now) };

    ghost stands = { λ a. AreStreamsOf (start_ends a.board.now) };

    ghost admits = { λ a. Admits (start_ends a.board.now) (ends_of a.hand.now) };

    ghost steps = { λ a. Some (steps_of a.hand.now) };

    ghost identity = { λ a. identity_of a.hand.ghost_name a.hand.now a.board.now };

    fn look_in(&mut self, station: u32) -> InLook {
        self.board.look_in(self.hand, station)
    }

    fn look_out(&mut self, station: u32) -> OutLook {
        self.board.look_out(self.hand, station)
    }

    fn take(&mut self, station: u32) -> u32 {
        self.board.take(self.hand, station)
    }

    fn put(&mut self, station: u32, token: u32) {
        self.board.put(self.hand, station, token);
    }

    ghost next_is_admitted = { λ a. attended_next a.board.now a.hand.now a.of_board };

    ghost passed_within = { λ a. attended_within a.board.now a.hand.now a.of_board };
}

//! The owner of some ends of a board.

ghost use Rattle.std.specs.Prelude.{◌≡◌, []};
ghost use Rattle.lid_board.specs.Ties.{IsTied};
ghost use Rattle.lid_board.specs.Views.{IsEarly};

use crate::view::HandView;
use atomic_table::Seat;

/// The owner of some ends of a board, with the number of tokens that passed each.
///
/// Contracts see of each end also the stream, the start count, the capacity, whether a token or
/// room was seen, and the misses (`ends_of`); and the ends at which the hand made its steps, the
/// latest first (`steps_of`). No look missed at a drained end which fewer tokens passed than the
/// station started with, and at a filled end which fewer passed than the capacity.
#[derive(Drop)]
pub struct Hand {
    pub(crate) seat: Seat<(), HandView>,
    /// How many tokens passed each end that is owned, by the end's number.
    pub(crate) ends: Vec<Option<u64>>,
    ghost tied: { IsTied ends.items seat.me.0.ends },
    ghost early: { IsEarly seat.me.0.ends },
    ghost no_slot: { seat.me.1 ≡ [] },
}

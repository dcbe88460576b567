//! How a board ends, as plain stations.

ghost use Rattle.std.specs.Prelude.{◌≡◌, ℕ, ◌+◌, ◌-◌, ◌*◌, ◌/◌, ◌^◌, ◌<◌, ◌≤◌, List, length, slice_get, slice_index, Some};
ghost use Rattle.std.specs.List.{All};
ghost use Rattle.std.specs.Mem.Slots.{slots_items, slots_len, IsFull};
ghost use Rattle.lid_station.specs.Plain.{plain_ends, PlainStands};
ghost use Rattle.lid_station.specs.declared.pair.Pair.{Pair};
ghost use Rattle.lid_board.specs.Closing.{CanRestore, IsRestored, Restored, number_at, closed_facts};
ghost use Rattle.lid_board.specs.Halves.{word_half};
ghost use Rattle.lid_board.specs.Owners.{IsOf, IsOwned, ends_of, start_ends};
ghost use Rattle.lid_board.specs.Relation.{capacity_of};
ghost use Rattle.lid_board.specs.Standing.{AreStreamsOf};
ghost use Rattle.lid_board.specs.Views.{held};

use crate::board::Board;
use crate::halves::{FULL, half_at};
use crate::hand::Hand;
use atomic_table::Closed;
use lid_station::{Pair, PlainBoard};
use std::alloc::Global;

/// The token that a word shows in a place; 0 where the place is empty.
fn token_at(place: u64, word: u64) -> u32
    ensures token { result ≡ word_half place word - 2147483648 }
    ensures small { result < 2 ^ 31 }
{
    let half = half_at(place, word);
    if half < FULL { 0 } else { (half - FULL) as u32 }
}

/// Copies the tokens of a station whose first word is given.
fn copy_places(closed: &Closed<(), Global>, first: usize, places: &mut [u32])
    requires full { IsFull closed.now.words }
    requires inside { first + (length places.old + 1) / 2 ≤ slots_len closed.now.words }
    requires small { All (λ token. token < 2 ^ 31) places.old }
    ensures each { (place : ℕ) → place < length places.new
        → slice_index places.new place ≡ word_half place (slice_index (slots_items closed.now.words) (first + place / 2)) - 2147483648 }
    ensures small { All (λ token. token < 2 ^ 31) places.new }
{
    for place in 0..places.len() {
        places[place] = token_at(place as u64, closed.word(first + place / 2));
    }
}

/// Makes a plain station one that these tokens passed.
fn restore(closed: &Closed<(), Global>, first: usize, put: u64, taken: u64, pair: &mut Pair)
    requires full { IsFull closed.now.words }
    requires can { CanRestore (slots_len closed.now.words) first put taken pair.old }
    ensures { IsRestored (slots_items closed.now.words) first put taken (length pair.old.places.items) pair.new }
{
    copy_places(closed, first, pair.places.as_mut_slice());
    pair.put = put;
    pair.taken = taken;
    pair.token_seen = false;
    pair.room_seen = false;
}

/// Makes each plain station one that the tokens of the board's station passed.
fn restore_all(
    closed: &Closed<(), Global>,
    firsts: &[usize],
    numbers: &[Option<u64>],
    pairs: &mut [Pair],
)
    requires full { IsFull closed.now.words }
    requires firsts { length pairs.old ≤ length firsts.now }
    requires numbers { 2 * length pairs.old ≤ length numbers.now }
    requires can { (i : ℕ) → (p : Pair) → slice_get pairs.old i ≡ Some p
        → CanRestore (slots_len closed.now.words) (slice_index firsts.now i) (number_at numbers.now (2 * i)) (number_at numbers.now (2 * i + 1)) p }
    ensures { Restored (slots_items closed.now.words) firsts.now numbers.now pairs.old pairs.new (length pairs.old) }
{
    for station in 0..pairs.len() {
        let put = numbers[2 * station].unwrap_or(0);
        let taken = numbers[2 * station + 1].unwrap_or(0);
        restore(closed, firsts[station], put, taken, &mut pairs[station]);
    }
}

impl Board {
    /// Ends the board. The plain board gets its tokens and its numbers, with nothing seen, and
    /// stands for its streams. The hand owns all ends, and the plain board has as many stations, of
    /// the same capacities.
    pub fn close(self, hand: Hand, into: &mut PlainBoard)
        requires of { IsOf hand self }
        requires all { (end : ℕ) → end < length (start_ends self) → IsOwned (ends_of hand) end }
        requires many { length (start_ends self) ≡ 2 * length into.old.pairs.items }
        requires caps { (station : ℕ) → (p : Pair) → slice_get into.old.pairs.items station ≡ Some p
            → length p.places.items ≡ capacity_of (start_ends self) station }
        ensures many { length into.new.pairs.items ≡ length into.old.pairs.items }
        ensures ends { (end : ℕ) → end < length (start_ends self) → plain_ends into.new.pairs.items end ≡ Some (closed_facts (held (ends_of hand) end)) }
        ensures stands { (streams : ℕ → List ℕ) → AreStreamsOf (start_ends self) streams → PlainStands into.new.pairs.items streams }
    {
        let Board {
            table,
            caps: _caps,
            firsts,
            alloc: _,
        } = self;
        let Hand { seat, ends } = hand;
        let closed = table.close_with(seat);
        restore_all(
            &closed,
            firsts.as_slice(),
            ends.as_slice(),
            into.pairs.as_mut_slice(),
        );
        closed.free();
    }
}

//! How ends go from hand to hand.

ghost use Rattle.std.specs.Prelude.{◌≡◌, ℕ, ◌+◌, ◌*◌, ◌^◌, ◌<◌, ◌≤◌, cond, length, None, Option, option_map, slice_index_or, IfOk, OnOk, OnErr, MatchResult, true, []};
ghost use Rattle.lid_board.specs.Owners.{IsOf, IsOwned, ends_of, steps_of, start_ends};
ghost use Rattle.lid_board.specs.Parting.{end_number, is_chosen, or_else, unseen};
ghost use Rattle.lid_board.specs.Views.{at};
ghost use Rattle.lid_board.specs.declared.view.EndFacts.{EndFacts};

use crate::board::Board;
use crate::hand::Hand;
use crate::steps::{join_both, split_as};
use lid_station::{End, Side};
use std::alloc::AllocError;
use std::marker::Brand;

/// The number of an end: twice the station's number where it is filled, one more where it is
/// drained.
fn number_of(end: End) -> usize
    ensures number { result ≡ end_number end }
    ensures small { result < 2 ^ 34 }
{
    match end.side {
        Side::Fill => 2 * end.station as usize,
        Side::Drain => 2 * end.station as usize + 1,
    }
}

/// The first number that is there.
fn first_of(one: Option<u64>, two: Option<u64>) -> Option<u64>
    ensures { result ≡ or_else one two }
{
    match one {
        Some(n) => Some(n),
        None => two,
    }
}

/// Moves the numbers of these ends.
fn move_numbers(from: &mut [Option<u64>], into: &mut [Option<u64>], ends: &[End])
    requires same { length into.old ≡ length from.old }
    requires none { (end : ℕ) → slice_index_or into.old end None ≡ None }
    requires inside { (end : ℕ) → is_chosen ends.now end ≡ true → end < length from.old }
    ensures from { (end : ℕ) → slice_index_or from.new end None ≡ cond (is_chosen ends.now end) None (slice_index_or from.old end None) }
    ensures into { (end : ℕ) → slice_index_or into.new end None ≡ cond (is_chosen ends.now end) (slice_index_or from.old end None) None }
{
    for end in ends {
        let number = number_of(*end);
        into[number] = first_of(from[number], into[number]);
        from[number] = None;
    }
}

/// Takes the numbers of more ends.
fn merge_numbers(into: &mut [Option<u64>], from: &[Option<u64>])
    requires same { length from.now ≡ length into.old }
    ensures { (end : ℕ) → slice_index_or into.new end None ≡ or_else (slice_index_or into.old end None) (slice_index_or from.now end None) }
{
    for number in 0..from.len() {
        into[number] = first_of(into[number], from[number]);
    }
}

impl Hand {
    /// How many tokens passed an end; none where another hand has it.
    pub fn passed(&self, end: End) -> Option<u64>
        ensures { result ≡ option_map (λ (h : EndFacts). h.passed) (at (ends_of self.now) (end_number end)) }
    {
        let number = number_of(end);
        if number < self.ends.len() {
            self.ends[number]
        } else {
            None
        }
    }
}

impl Board {
    /// Gives these ends of a hand to a new one, by a load of word 0. They keep their streams,
    /// start counts, numbers and misses, and what was seen there is seen no more. The other ends of
    /// the hand stay as they are. The new hand has made no step. The hand is one of this board, and
    /// owns the ends.
    ///
    /// # Errors
    /// Memory is wanting. Nothing has changed then.
    pub fn split(&self, hand: &mut Hand, ends: &[End]) -> Result<Hand, AllocError>
        requires of { IsOf hand.old self.now }
        requires owned { (end : ℕ) → is_chosen ends.now end ≡ true → IsOwned (ends_of hand.old) end }
        ensures of { IsOf hand.new self.now }
        ensures new_of { IfOk result (λ new. IsOf new self.now) }
        ensures kept { OnOk result ((end : ℕ) → at (ends_of hand.new) end ≡ cond (is_chosen ends.now end) None (at (ends_of hand.old) end)) }
        ensures given { IfOk result (λ new. (end : ℕ) → at (ends_of new) end
            ≡ cond (is_chosen ends.now end) (option_map unseen (at (ends_of hand.old) end)) None) }
        ensures steps { OnOk result (steps_of hand.new ≡ steps_of hand.old) }
        ensures new_steps { IfOk result (λ new. steps_of new ≡ []) }
        ensures err { OnErr result (hand.new ≡ hand.old) }
    {
        let mut numbers = vec![in self.alloc; None; hand.ends.len()]?;
        let seat = split_as::<Brand>(&self.table.shared, &mut hand.seat, ends);
        move_numbers(hand.ends.as_mut_slice(), numbers.as_mut_slice(), ends);
        Ok(Hand {
            seat,
            ends: numbers,
        })
    }

    /// Gives all ends of another hand to this one, by a load of word 0. They keep their streams,
    /// start counts, numbers and misses, and what was seen there is seen no more. The other ends of
    /// the hand stay as they are, and so do the steps that it noted. Both hands are of this board.
    pub fn join(&self, hand: &mut Hand, other: Hand)
        requires of { IsOf hand.old self.now }
        requires other { IsOf other self.now }
        ensures of { IsOf hand.new self.now }
        ensures joined { (end : ℕ) → at (ends_of hand.new) end ≡ or_else (at (ends_of hand.old) end) (option_map unseen (at (ends_of other) end)) }
        ensures steps { steps_of hand.new ≡ steps_of hand.old }
    {
        let Hand { seat, ends } = other;
        join_both(&self.table.shared, &mut hand.seat, seat);
        merge_numbers(hand.ends.as_mut_slice(), ends.as_slice());
    }
}

//! How a crew gives back what it has.

ghost use Rattle.std.specs.Prelude.{◌≡◌, ◌<◌, ◌≤◌, ℕ, List, [], length, map, Some, slice_get, vec_capacity};
ghost use Rattle.lid_board.specs.Owners.{IsOf, start_ends};
ghost use Rattle.lid_free_crew.specs.Shares.{numbers_of};
ghost use Rattle.lid_free_crew.specs.Crews.{AreBack, AreShared, HasNone, HasJoined};
ghost use Rattle.lid_free_crew.specs.declared.worker.Worker.{Worker};

use crate::worker::Worker;
use lid_base::Tally;
use lid_board::{Board, Hand};
use lid_shell::Actor;

/// Takes all actors, so many, back from the workers to which they were dealt, into a list that has none and has room.
pub fn take_back<'r>(crew: &mut [Worker<'r>], many: usize, into: &mut Vec<Actor<'r>>)
    requires some { 0 < length crew.old }
    requires dealt { (i : ℕ) (w : Worker) → slice_get crew.old i ≡ Some w → length w.actors.items ≡ length (numbers_of (length crew.old) i many) }
    requires none { into.old.items ≡ [] }
    requires room { many ≤ vec_capacity into.old }
    ensures { AreBack many into.new.items crew.old crew.new }
{
    let mut left = many;
    while left > 0 {
        left -= 1;
        let worker = left % crew.len();
        if let Some(actor) = crew[worker].actors.pop() {
            into.push_reserved(actor);
        }
    }
    into.as_mut_slice().reverse();
}

/// Joins the hands of all workers to one that has no ends, and notes their tallies, one for each, in order.
pub fn join_all(board: &Board, keeper: &mut Hand, crew: Vec<Worker<'_>>, tallies: &mut [Tally])
    requires of { IsOf keeper.old board.now }
    requires hands { (i : ℕ) (w : Worker) → slice_get crew.items i ≡ Some w → IsOf w.hand board.now }
    requires none { HasNone keeper.old }
    requires many { length tallies.old ≡ length crew.items }
    ensures of { IsOf keeper.new board.now }
    ensures joined { (owners : List ℕ) → AreShared (length crew.entry.items) owners crew.entry.items
        → HasJoined (length crew.entry.items) owners crew.entry.items keeper.new }
    ensures tallies { tallies.new ≡ map (λ w. w.tally) crew.entry.items }
{
    let mut crew = crew;
    while let Some(worker) = crew.pop() {
        tallies[crew.len()] = worker.tally;
        board.join(keeper, worker.hand);
    }
}

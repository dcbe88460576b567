//! Workers.

ghost use Rattle.std.specs.Prelude.{◌≡◌, ◌≤◌, ℕ, List};
ghost use Rattle.lid_board.specs.Owners.{IsOf};
ghost use Rattle.lid_shell_laws.specs.Setups.{Setup};
ghost use Rattle.lid_walk_machine.specs.Machine.{State};
ghost use Rattle.lid_free_crew.specs.Posts.{IsReady, StaysAt};
ghost use Rattle.lid_free_crew.specs.Turns.{HaveGone};
ghost use Rattle.lid_free_crew.specs.Tallies.{IsTallyOf};
ghost use Rattle.lid_free_crew.specs.Order.{WorksInOrder};
ghost use Rattle.lid_free_crew.specs.Alone.{WorksAlone, MakesRounds};

use crate::rounds::{done_first, make_round};
use lid_base::{Gate, Tally};
use lid_board::{Board, Hand};
use lid_shell::Actor;

/// Some actors of a free run, with a hand that has the ends of their stations, and what was counted of their turns.
#[derive(Drop)]
pub struct Worker<'r> {
    /// The worker's number, from 0.
    pub number: u32,
    /// The actors, in the order in which they make their turns.
    pub actors: Vec<Actor<'r>>,
    /// The hand.
    pub hand: Hand,
    /// How their turns ended.
    pub tally: Tally,
}

/// Makes so many rounds by the worker's hand at its board: in each, one turn of each actor, in order, after the gate
/// was passed with the worker's number and the number of the round, from 0.
///
/// The hand is one of this board. All actors are at rest and agree with the hand, and no two of them share an end.
/// They number at most 2^18, the rounds at most 1,000,000, and the tally is all zero. Afterwards all are at rest and
/// in agreement again, and the tally has how all turns ended. The hand notes the ends of its steps turn by turn, in that
/// order. Nothing waits here, and no memory is taken.
pub fn work<G: Gate>(worker: &mut Worker<'_>, board: &Board, rounds: u64, gate: &G)
    requires ready { IsReady board.now worker.old }
    requires few { rounds ≤ 1000000 }
    ensures stays { StaysAt board.now worker.old worker.new }
    ensures gone { HaveGone board.now rounds worker.old worker.new }
    ensures tally { IsTallyOf board.now rounds worker.old worker.new }
    ensures in_order { WorksInOrder board.now rounds worker.old worker.new }
    ensures alone { (m : Setup) (numbers : List ℕ) (st : State) → WorksAlone m numbers st board.now worker.old
        → MakesRounds m numbers st board.now rounds worker.new }
{
    let mut done = 0;
    for round in 0..rounds {
        gate.pass(worker.number, round);
        make_round(
            worker.actors.as_mut_slice(),
            board,
            &mut worker.hand,
            &mut worker.tally,
            done,
        );
        done = done_first(worker.actors.as_slice(), done);
    }
}

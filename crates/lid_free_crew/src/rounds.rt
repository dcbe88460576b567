//! Turns of actors by a hand at its board, and rounds of them.

ghost use Rattle.std.specs.Prelude.{◌≡◌, ◌+◌, ◌^◌, ◌<◌, ◌≤◌, ℕ, List, length, Some, slice_get};
ghost use Rattle.lid_base.specs.declared.runs.Tally.{Tally};
ghost use Rattle.lid_station.specs.Boards.{Ends};
ghost use Rattle.lid_board.specs.Owners.{IsOf, steps_of};
ghost use Rattle.lid_walk_machine.specs.Setups.{plan};
ghost use Rattle.lid_shell_laws.specs.Setups.{Setup};
ghost use Rattle.lid_walk_machine.specs.Machine.{State};
ghost use Rattle.lid_shell.specs.declared.actor.Actor.{Actor};
ghost use Rattle.lid_free_crew.specs.Posts.{known, IsAtWork, AreApart};
ghost use Rattle.lid_free_crew.specs.Tallies.{AddsUp, counted, counted_done};
ghost use Rattle.lid_free_crew.specs.Alone.{TurnsSoFar, AreAlone, round_of};
ghost use Rattle.lid_free_crew.specs.Order.{MakesTurn, HasMadeSteps, stage, TurnsMade};
ghost use Rattle.lid_free_crew.specs.Rounds.{Made, AreDone, GoesRound};

use lid_base::Tally;
use lid_board::{Attended, Board, Hand};
use lid_shell::{Actor, TurnEnd};

/// Counts a turn that ended so.
fn count(tally: &mut Tally, end: TurnEnd)
    requires adds_up { AddsUp tally.old }
    requires room { tally.old.turns + 1 < 2 ^ 64 }
    ensures { tally.new ≡ counted end tally.old }
{
    tally.turns += 1;
    match end {
        TurnEnd::Fired => tally.fired += 1,
        TurnEnd::Void { .. } => tally.voids += 1,
        TurnEnd::Stop { .. } => tally.stops += 1,
        TurnEnd::Done => tally.dones += 1,
    }
}

/// Counts so many turns of actors at their caps.
fn count_done(tally: &mut Tally, turns: u64)
    requires adds_up { AddsUp tally.old }
    requires room { tally.old.turns + turns < 2 ^ 64 }
    ensures { tally.new ≡ counted_done turns tally.old }
{
    tally.turns += turns;
    tally.dones += turns;
}

/// Makes one turn of an actor by a hand at its board, and counts it.
fn make_turn(actor: &mut Actor<'_>, board: &Board, hand: &mut Hand, tally: &mut Tally)
    requires of { IsOf hand.old board.now }
    requires at_work { IsAtWork board.now (known hand.old) actor.old }
    requires adds_up { AddsUp tally.old }
    requires room { tally.old.turns + 1 < 2 ^ 64 }
    ensures of { IsOf hand.new board.now }
    ensures turn { MakesTurn board.now (known hand.old) actor.old tally.old (known hand.new) actor.new tally.new }
    ensures steps { HasMadeSteps actor.old (steps_of hand.old) (steps_of hand.new) }
{
    let mut stations = Attended {
        board,
        hand: &mut *hand,
    };
    let end = actor.turn(&mut stations);
    count(tally, end);
}

/// Makes one turn of each actor, in order. The first so many are at their caps: their turns are counted without a look
/// at them.
pub(crate) fn make_round(
    actors: &mut [Actor<'_>],
    board: &Board,
    hand: &mut Hand,
    tally: &mut Tally,
    done: usize,
)
    requires of { IsOf hand.old board.now }
    requires at_work { (i : ℕ) (a : Actor) → slice_get actors.old i ≡ Some a → IsAtWork board.now (known hand.old) a }
    requires apart { AreApart actors.old }
    requires adds_up { AddsUp tally.old }
    requires room { tally.old.turns + length actors.old < 2 ^ 64 }
    requires within { done ≤ length actors.old }
    requires done { AreDone done actors.old }
    ensures of { IsOf hand.new board.now }
    ensures round { GoesRound board.now (known hand.old) actors.old tally.old (known hand.new) actors.new tally.new }
    ensures in_order { TurnsMade board.now (length actors.old) (stage hand.old actors.old tally.old) (stage hand.new actors.new tally.new) }
{
    count_done(tally, done as u64);
    for at in done..actors.len() {
        make_turn(&mut actors[at], board, hand, tally);
    }
}

/// How many actors from the first on are at their caps, where so many are: up to the first that is not.
pub(crate) fn done_first(actors: &[Actor<'_>], done: usize) -> usize
    requires within { done ≤ length actors.now }
    requires done { AreDone done actors.now }
    ensures within { result ≤ length actors.now }
    ensures done { AreDone result actors.now }
{
    for place in done..actors.len() {
        if actors[place].fired() != actors[place].cap() {
            return place;
        }
    }
    actors.len()
}

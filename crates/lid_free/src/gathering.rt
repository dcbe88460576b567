//! The parallel phase, and what is gathered after it.

ghost use Rattle.std.specs.Prelude.{◌≡◌, ◌==◌, ◌≤◌, ℕ, cond, length, map, Some, slice_get};
ghost use Rattle.lid_shell_laws.specs.Setups.{Setup};
ghost use Rattle.lid_free_crew.specs.Posts.{IsReady};
ghost use Rattle.lid_free_crew.specs.Crews.{HaveWorked};
ghost use Rattle.lid_free.specs.Gathering.{HasWorkedOut, AreGathered};
ghost use Rattle.lid_free.specs.Workers.{fired_of};
ghost use Rattle.lid_free_crew.specs.declared.worker.Worker.{Worker};

use crate::setting::{Boards, Crew};
use lid_base::{Gate, Tally};
use lid_board::Board;
use lid_free_crew::{Worker, join_all, take_back, work_all};
use lid_shell::Actor;
use lid_station::{Pair, PlainBoard};
use std::thread::Threads;

/// Lets the workers of a run over so many rows make their rounds. Without rows none is started.
pub(crate) fn run_all<R: Threads + Sync, G: Gate>(
    rt: &R,
    board: &Board,
    crew: &mut [Worker<'_>],
    rows: usize,
    rounds: u64,
    gate: &G,
)
    requires ready { (i : ℕ) (w : Worker) → slice_get crew.old i ≡ Some w → IsReady board.now w }
    requires few { rounds ≤ 1000000 }
    ensures { HaveWorked board.now (cond (rows == 0) 0 rounds) crew.old crew.new }
{
    if rows > 0 {
        work_all(rt, board, crew, rounds, gate);
    }
}

/// What is left of the parallel phase: a plain board, and all actors in the order of their numbers.
#[derive(Drop)]
pub(crate) struct Left<'r> {
    pub(crate) plain: PlainBoard,
    pub(crate) actors: Vec<Actor<'r>>,
}

/// Gathers all ends and all actors of the workers, and notes their tallies.
pub(crate) fn gather<'r>(boards: Boards, crew: Crew<'r>, tallies: &mut [Tally]) -> Left<'r>
    requires { (m : Setup) × (workers : ℕ) × (made : ℕ) × HasWorkedOut m workers made boards crew × (length tallies.old ≡ workers) }
    ensures { (m : Setup) (workers made : ℕ) → HasWorkedOut m workers made boards crew.entry
        → AreGathered m workers made result.plain.pairs.items result.actors.items tallies.new }
{
    let Boards {
        board,
        mut keeper,
        mut plain,
    } = boards;
    let Crew {
        mut workers,
        actors,
        mut back,
    } = crew;
    take_back(workers.as_mut_slice(), actors, &mut back);
    join_all(&board, &mut keeper, workers, tallies);
    board.close(keeper, &mut plain);
    Left {
        plain,
        actors: back,
    }
}

/// Notes how often each actor has fired.
pub(crate) fn note_fired(actors: &[Actor<'_>], fired: &mut [u64])
    requires { length fired.old ≡ length actors.now }
    ensures { fired.new ≡ fired_of actors.now }
{
    for actor in 0..actors.len() {
        fired[actor] = actors[actor].fired();
    }
}

/// Notes how many tokens were taken from each station.
pub(crate) fn note_passed(pairs: &[Pair], passed: &mut [u64])
    requires { length passed.old ≡ length pairs.now }
    ensures { passed.new ≡ map (λ p. p.taken) pairs.now }
{
    for station in 0..pairs.len() {
        passed[station] = pairs[station].taken;
    }
}

//! Walks.

ghost use Rattle.std.specs.Prelude.{◌≡◌, ◌↔◌, ◌≤◌, ◌+◌, ℕ, true, length, IfOk};
ghost use Rattle.std.specs.List.{All, AllByRecursion};
ghost use Rattle.lid_system.specs.Systems.{IsWellFormed};
ghost use Rattle.lid_stations.specs.Placements.{Fits};
ghost use Rattle.lid_walk_machine.specs.Plans.{actors_of, sink};
ghost use Rattle.lid_walk_machine.specs.Setups.{plan, output_rows};
ghost use Rattle.lid_shell_laws.specs.Setups.{Setup, IsSetup, IsInputRow};
ghost use Rattle.lid_walk_machine.specs.Machine.{State, begun, answer_of, next, turn, sweep, IsSettled};
ghost use Rattle.lid_walk_machine.specs.Laws.{AllRest};
ghost use Rattle.lid_texts_packed.specs.Input.{input_of};
ghost use Rattle.lid_shell.specs.Parts.{AreColumnsAtSink};
ghost use Rattle.lid_walk.specs.Setups.{IsSetupOf};
ghost use Rattle.lid_walk.specs.Actors.{AreActors};
ghost use Rattle.lid_walk.specs.Walks.{IsBoard, Walks, IsSetupWalk, HasActor, HasActorAtRest, IsAtRest, firings_between};

use crate::actors::all_actors;
use crate::starting::board_of;
use lid_base::{Answer, Items};
use lid_shell::{Actor, TurnEnd};
use lid_station::PlainBoard;
use lid_stations::{Placed, Placement};
use lid_system::{System, systems_have_one_table};
use lid_texts::Rows;
use lid_texts_packed::InputRows;
use std::alloc::{AllocError, Global};

/// All actors of a system over one board. Actors make steps one at a time, in whatever order.
#[derive(Drop)]
pub struct Walk<'r> {
    pub(crate) board: PlainBoard,
    /// The actors, in the order of their numbers.
    pub(crate) actors: Vec<Actor<'r>>,
}

/// Whether all actors are at their caps.
fn are_done(actors: &[Actor]) -> bool
    ensures { (result ≡ true) ↔ All (λ actor. actor.desk.fired ≡ actor.desk.cap) actors.now }
{
    actors.iter().all(|actor| actor.fired() == actor.cap())
}

impl<'r> Walk<'r> {
    /// Starts a run of a system with its stations over input rows: at most 1,000,000, each as wide as the source. No
    /// actor has begun, and each station that a node fills holds the token of the first row, where there is one.
    ///
    /// # Errors
    /// Memory is wanting.
    pub fn start(
        alloc: Global,
        system: &System,
        placement: &Placement,
        rows: &'r Rows,
    ) -> Result<Walk<'r>, AllocError>
        requires system { IsWellFormed system.now }
        requires fits { Fits system.now placement.now }
        requires few { length rows.now.bits ≤ 1000000 }
        requires wide { AllByRecursion (IsInputRow system.now) rows.now.bits }
        ensures { IfOk result (λ w. (m : Setup) → IsSetupOf m system.now placement.now rows.now.bits → Walks m begun w) }
    {
        Walk::start_over(alloc, system, placement, InputRows::Listed(rows))
    }

    /// Starts a run over input rows that are listed or packed, as `start` does.
    ///
    /// # Errors
    /// Memory is wanting.
    pub fn start_over(
        alloc: Global,
        system: &System,
        placement: &Placement,
        rows: InputRows<'r>,
    ) -> Result<Walk<'r>, AllocError>
        requires system { IsWellFormed system.now }
        requires fits { Fits system.now placement.now }
        requires few { length (input_of rows) ≤ 1000000 }
        requires wide { AllByRecursion (IsInputRow system.now) (input_of rows) }
        ensures { IfOk result (λ w. (m : Setup) → IsSetupOf m system.now placement.now (input_of rows.entry) → Walks m begun w) }
    {
        systems_have_one_table();
        let placed = Placed { system, placement };
        let board = board_of(alloc, &placed, rows)?;
        let actors = all_actors(alloc, &placed, rows)?;
        Ok(Walk::adopt(board, actors))
    }

    /// Goes on from a board and the actors of one system over its rows, in the order of their numbers, which agree with
    /// the board.
    pub fn adopt(board: PlainBoard, actors: Vec<Actor<'r>>) -> Walk<'r>
        requires { (m : Setup) × (st : State) × IsSetup m × AreActors m st actors.items × IsBoard m st board.pairs.items }
        ensures { (m : Setup) (st : State) → IsSetup m → AreActors m st actors.entry.items → IsBoard m st board.pairs.items → Walks m st result }
    {
        Walk { board, actors }
    }

    /// Makes one step of an actor, which exists. It answers, and the walk goes on, as the interleaving machine says.
    pub fn step(&mut self, actor: u32) -> Answer
        requires { HasActor self.old actor }
        ensures walks { (m : Setup) (st : State) → Walks m st self.old → Walks m (next (plan m) st actor) self.new }
        ensures answers { (m : Setup) (st : State) → Walks m st self.old → result ≡ answer_of (plan m) st actor }
    {
        self.actors[actor as usize].step(&mut self.board)
    }

    /// Makes one turn of each actor, in the order of their numbers, where all are at rest. Answers how many fired. Where
    /// some actor is below its cap, at least one did.
    pub fn sweep(&mut self) -> u64
        requires { IsAtRest self.old }
        ensures walks { (m : Setup) (st : State) → Walks m st self.old → AllRest (plan m) st → Walks m (sweep (plan m) st) self.new }
        ensures fired { (m : Setup) (st : State) → Walks m st self.old → AllRest (plan m) st → result ≡ firings_between (plan m) st (sweep (plan m) st) }
        ensures rest { (m : Setup) (st : State) → Walks m st self.old → AllRest (plan m) st → AllRest (plan m) (sweep (plan m) st) }
        ensures idle { (m : Setup) (st : State) → Walks m st self.old → AllRest (plan m) st → result ≡ 0 → IsSettled (plan m) st }
    {
        let mut fired = 0u64;
        for actor in 0..self.actors.len() as u32 {
            fired += self.turn(actor);
        }
        fired
    }

    /// Makes one turn of an actor, which exists and is at rest. Answers how often it fired, which is at most once.
    fn turn(&mut self, actor: u32) -> u64
        requires { HasActorAtRest self.old actor }
        ensures walks { (m : Setup) (st : State) → Walks m st self.old → (st actor).position ≡ 0 → Walks m (turn (plan m) st actor) self.new }
        ensures fired { (m : Setup) (st : State) → Walks m st self.old → (st actor).position ≡ 0
            → (turn (plan m) st actor actor).fired ≡ (st actor).fired + result }
        ensures once { result ≤ 1 }
    {
        match self.actors[actor as usize].turn(&mut self.board) {
            TurnEnd::Fired => 1,
            _ => 0,
        }
    }

    /// Whether every actor is at its cap.
    pub fn settled(&self) -> bool
        ensures { (m : Setup) (st : State) → Walks m st self.now → (result ≡ true) ↔ IsSettled (plan m) st }
    {
        are_done(self.actors.as_slice())
    }

    /// How often an actor has fired. It exists.
    pub fn fired(&self, actor: u32) -> u64
        requires { HasActor self.now actor }
        ensures { (m : Setup) (st : State) → Walks m st self.now → result ≡ (st actor).fired }
    {
        self.actors[actor as usize].fired()
    }

    /// The rows that the sink has given, in order: the first strict output rows, as many as it has fired.
    pub fn rows(&self) -> &[Items<bool>]
        requires { IsSetupWalk self.now }
        ensures { (m : Setup) (st : State) → Walks m st self.now → result.now ≡ output_rows m (st (sink (plan m))).fired }
    {
        self.actors[self.sink()].given().unwrap()
    }

    /// Hands out the rows that the sink has given.
    pub fn into_rows(self) -> Rows
        requires { IsSetupWalk self }
        ensures { (m : Setup) (st : State) → Walks m st self.entry → AreColumnsAtSink m (sink (plan m)) result.columns
            × (result.bits ≡ output_rows m (st (sink (plan m))).fired) }
    {
        let sink = self.sink();
        let mut actors = self.actors;
        actors.swap_remove(sink).into_given().unwrap()
    }

    /// The number of the sink.
    fn sink(&self) -> usize
        requires { IsSetupWalk self.now }
        ensures { (m : Setup) (st : State) → Walks m st self.now → result ≡ sink (plan m) }
    {
        let mut actor = 0usize;
        while self.actors[actor].given().is_none() {
            actor += 1;
        }
        actor
    }
}

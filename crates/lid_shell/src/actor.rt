//! Actors.

ghost use Rattle.std.specs.Prelude.{◌≡◌, ◌↔◌, ◌+◌, ◌<◌, ◌≤◌, ◌==◌, ℕ, true, [], ◌∷◌, length, map, Option, Some, option_map, IfSome, IsSome, IfOk, slice_get};
ghost use Rattle.std.specs.List.{AllByRecursion};
ghost use Rattle.lid_base.specs.declared.runs.Answer.TheVariants as answer;
ghost use Rattle.lid_system.specs.Systems.{IsWellFormed};
ghost use Rattle.lid_shell_nodes.specs.Wiring.{IsShellOf};
ghost use Rattle.lid_stations.specs.Placements.{links_of};
ghost use Rattle.lid_walk_machine.specs.Plans.{actors_of, sink, ins_of, outs_of};
ghost use Rattle.lid_walk_machine.specs.Setups.{output_rows, plan};
ghost use Rattle.lid_shell_laws.specs.Setups.{Setup, IsSetup, IsInputRow};
ghost use Rattle.lid_walk_machine.specs.Machine.{Progress, State, turn, turn_answer};
ghost use Rattle.lid_texts_packed.specs.Input.{input_of};
ghost use Rattle.lid_shell.specs.Boards.{ServesAll};
ghost use Rattle.lid_shell.specs.Parts.{IsSinkRole, AreColumnsAtSink};
ghost use Rattle.lid_shell.specs.Actors.{IsActor};
ghost use Rattle.lid_shell.specs.Steps.{Works, CanStep, CanTurn, MakesStep, IsExact, missed_end, made_end, Moves, NotesStep, NotesOwn, MissesLate};
ghost use Rattle.lid_shell.specs.Turns.{answer_at, Turned};
ghost use Rattle.lid_shell.specs.TurnEnds.{end_at};
ghost use Rattle.lid_shell.specs.declared.turn.TurnEnd.TheVariants as end;

use crate::building::{mover_desk, new_desk, new_given};
use crate::desk::{Desk, Next};
use crate::part::{Input, Role};
use crate::rules::actors_go_by_rules;
use crate::turn::{TurnEnd, end_of};
use lid_base::{Answer, Items};
use lid_shell_nodes::{ShellNode, SinkNode, SourceNode};
use lid_station::Stations;
use lid_system::System;
use lid_texts::Rows;
use lid_texts_packed::InputRows;
use std::alloc::{AllocError, Global};

/// An actor: the source, a shell, the sink, or a mover. It goes through the positions of a firing, one step each: it
/// looks at each station that it drains, in the order of the channels, then at each that it fills, then takes from
/// each of the first, then puts in each of the others.
#[derive(Drop)]
pub struct Actor<'r> {
    pub(crate) desk: Desk,
    pub(crate) part: Role<'r>,
}

impl<'r> Actor<'r> {
    /// The source of a system over input rows: at most 1,000,000, each as wide as the source. It fills these
    /// stations, one for each channel that comes from it, in the order of the channels.
    ///
    /// # Errors
    /// Memory is wanting.
    pub fn source(
        alloc: Global,
        system: &System,
        rows: &'r Rows,
        outs: &[u32],
    ) -> Result<Actor<'r>, AllocError>
        requires system { IsWellFormed system.now }
        ensures { IfOk result (λ a. (m : Setup) → IsSetup m → m.system ≡ system.now → m.input ≡ rows.now.bits → outs_of (plan m) 0 ≡ outs.now
            → IsActor m 0 (record { fired = 0; position = 0 }) a) }
    {
        Actor::source_over(alloc, system, InputRows::Listed(rows), outs)
    }

    /// The source of a system over input rows that are listed or packed, with these stations as for `source`.
    ///
    /// # Errors
    /// Memory is wanting.
    pub fn source_over(
        alloc: Global,
        system: &System,
        rows: InputRows<'r>,
        outs: &[u32],
    ) -> Result<Actor<'r>, AllocError>
        requires system { IsWellFormed system.now }
        ensures { IfOk result (λ a. (m : Setup) → IsSetup m → m.system ≡ system.now → m.input ≡ input_of rows.entry → outs_of (plan m) 0 ≡ outs.now
            → IsActor m 0 (record { fired = 0; position = 0 }) a) }
    {
        actors_go_by_rules();
        let node = SourceNode::of(alloc, system)?;
        let row = Vec::from_elem(alloc, false, node.width())?;
        let cap = (rows.len() as u64).saturating_sub(1);
        let desk = new_desk(alloc, &[], outs, cap)?;
        Ok(Actor {
            desk,
            part: Role::Source(Input { node, rows, row }),
        })
    }

    /// The shell at a node of a system, in a run of so many rows, which drains and fills these stations, one for each
    /// channel that leads to it and that comes from it, in the order of the channels.
    ///
    /// # Errors
    /// Memory is wanting.
    pub fn shell(
        alloc: Global,
        system: &System,
        node: u32,
        ins: &[u32],
        outs: &[u32],
        rows: u64,
    ) -> Result<Actor<'r>, AllocError>
        requires system { IsWellFormed system.now }
        requires shell { (0 < node) × (node + 1 < length system.now.nodes) }
        ensures { IfOk result (λ a. (m : Setup) → IsSetup m → m.system ≡ system.now → length m.input ≡ rows → ins_of (plan m) node ≡ ins.now
            → outs_of (plan m) node ≡ outs.now → IsActor m node (record { fired = 0; position = 0 }) a) }
    {
        let part = ShellNode::of(alloc, system, node)?;
        Actor::shell_with(alloc, part, ins, outs, rows)
    }

    /// A shell, where its node is at hand, in a run of so many rows, with these stations as for `shell`.
    ///
    /// # Errors
    /// Memory is wanting.
    pub fn shell_with(
        alloc: Global,
        part: ShellNode,
        ins: &[u32],
        outs: &[u32],
        rows: u64,
    ) -> Result<Actor<'r>, AllocError>
        ensures { IfOk result (λ a. (m : Setup) (v : ℕ) → IsSetup m → 0 < v → v + 1 < length m.system.nodes → IsShellOf m.system m.table v 0 part
            → length m.input ≡ rows → ins_of (plan m) v ≡ ins.now → outs_of (plan m) v ≡ outs.now → IsActor m v (record { fired = 0; position = 0 }) a) }
    {
        let desk = new_desk(alloc, ins, outs, rows.saturating_sub(1))?;
        Ok(Actor {
            desk,
            part: Role::Shell(part),
        })
    }

    /// A mover from one station to the next, in a run of so many rows. It takes no memory.
    pub fn mover(alloc: Global, from: u32, to: u32, rows: u64) -> Actor<'r>
        ensures { (m : Setup) (v : ℕ) → IsSetup m → length m.system.nodes ≤ v → v < actors_of (plan m) → length m.input ≡ rows
            → ins_of (plan m) v ≡ from ∷ [] → outs_of (plan m) v ≡ to ∷ [] → IsActor m v (record { fired = 0; position = 0 }) result }
    {
        Actor {
            desk: mover_desk(alloc, from, to, rows),
            part: Role::Mover,
        }
    }

    /// The sink of a system, in a run of so many rows, which drains these stations, one for each channel that leads to
    /// it, in the order of the channels. It makes the room for all output rows.
    ///
    /// # Errors
    /// Memory is wanting.
    pub fn sink(
        alloc: Global,
        system: &System,
        ins: &[u32],
        rows: u64,
    ) -> Result<Actor<'r>, AllocError>
        requires system { IsWellFormed system.now }
        ensures { IfOk result (λ a. (m : Setup) → IsSetup m → m.system ≡ system.now → length m.input ≡ rows
            → ins_of (plan m) (sink (plan m)) ≡ ins.now → IsActor m (sink (plan m)) (record { fired = 0; position = 0 }) a) }
    {
        actors_go_by_rules();
        let node = SinkNode::of(alloc, system)?;
        let given = new_given(alloc, system, node.width(), rows)?;
        let desk = new_desk(alloc, ins, &[], rows)?;
        Ok(Actor {
            desk,
            part: Role::Sink(node, given),
        })
    }

    /// Makes one step at a board, which serves the actor's ends in agreement with how far it is. At its cap it answers
    /// `Done`, and nothing changes. A look answers what it finds; where it finds nothing, the actor goes back to the
    /// first position, and that is one miss, where the board counts misses. The last take or put of a firing tells
    /// that the actor has fired; an actor without stations fires in one step. Each step but these two is noted exactly
    /// once, at the end of the actor that the answer tells, where the board notes steps; these two are not noted.
    pub fn step<B: Stations>(&mut self, board: &mut B) -> Answer
        requires can { CanStep self.old (B.ends board.old) (B.stands board.old) }
        ensures steps { (m : Setup) (v : ℕ) (q : Progress) → Works m v q self.old (B.ends board.old) (B.stands board.old)
            → MakesStep m v q result self.new (B.ends board.new) (B.stands board.new) }
        ensures exact { (m : Setup) (v : ℕ) (st : State) → Works m v (st v) self.old (B.ends board.old) (B.stands board.old)
            → ServesAll m st v (B.ends board.old) → IsExact m st v result }
        ensures moves { Moves self.old.desk.ins.items self.old.desk.outs.items (missed_end result) (B.ends board.old) (B.ends board.new) }
        ensures notes { NotesOwn self.old (B.steps board.old) (B.steps board.new) }
        ensures once { NotesStep (made_end result) (B.steps board.old) (B.steps board.new) }
        ensures late { MissesLate (B.ends board.old) result }
        ensures done { result ≡ answer.Done → (self.new ≡ self.old) × (board.new ≡ board.old) }
        ensures same { B.identity board.new ≡ B.identity board.old }
    {
        if self.desk.fired == self.desk.cap {
            return Answer::Done;
        }
        match self.desk.next() {
            Next::LookIn(i) => self.desk.look_in(board, i),
            Next::LookOut(j) => self.desk.look_out(board, j),
            Next::Take(i) => self.take(board, i),
            Next::Put(j) => self.put(board, j),
            Next::Fire => {
                self.fire();
                Answer::Fired
            }
        }
    }

    /// Makes one turn at a board: steps from rest until the actor is at rest again. It is at rest, and the board serves
    /// its ends in agreement. `Void` and `Stop` tell the station at which the last look found nothing, and that is one
    /// miss, where the board counts misses; with any other end there was none. `Done` comes exactly at the cap, with
    /// nothing changed. Where the board notes steps, all that are noted are at ends of the actor, and there is at least
    /// one, but at the cap or without stations.
    pub fn turn<B: Stations>(&mut self, board: &mut B) -> TurnEnd
        requires can { CanTurn self.old (B.ends board.old) (B.stands board.old) }
        ensures turned { (m : Setup) (v fired : ℕ)
            → Works m v (record { fired = fired; position = 0 }) self.old (B.ends board.old) (B.stands board.old)
            → Turned m v fired result self.new (B.ends board.new) (B.stands board.new) }
        ensures exact { (m : Setup) (v : ℕ) (st : State) → (st v).position ≡ 0 → Works m v (st v) self.old (B.ends board.old) (B.stands board.old)
            → ServesAll m st v (B.ends board.old) → (result ≡ end_at (turn_answer (plan m) st v)) × IsActor m v (turn (plan m) st v v) self.new }
        ensures moves { Moves self.old.desk.ins.items self.old.desk.outs.items (missed_end (answer_at result)) (B.ends board.old) (B.ends board.new) }
        ensures notes { NotesOwn self.old (B.steps board.old) (B.steps board.new) }
        ensures late { MissesLate (B.ends board.old) (answer_at result) }
        ensures done { result ≡ end.Done → (self.new ≡ self.old) × (board.new ≡ board.old) }
        ensures same { B.identity board.new ≡ B.identity board.old }
    {
        loop {
            let answer = self.step(board);
            match end_of(answer) {
                Some(end) => return end,
                None => {}
            }
        }
    }

    /// How often it has fired.
    pub fn fired(&self) -> u64
        ensures { result ≡ self.now.desk.fired }
    {
        self.desk.fired
    }

    /// Whether it is at rest: no firing has begun.
    pub fn at_rest(&self) -> bool
        ensures { result ≡ (self.now.desk.position == 0) }
    {
        self.desk.position == 0
    }

    /// How often it fires at most.
    pub fn cap(&self) -> u64
        ensures { result ≡ self.now.desk.cap }
    {
        self.desk.cap
    }

    /// The rows that the sink has given, in order: a row for each of its firings. None for an actor that is no sink.
    pub fn given(&self) -> Option<&[Items<bool>]>
        ensures sink { IsSome result ↔ IsSinkRole self.now.part }
        ensures which { (m : Setup) (v : ℕ) (q : Progress) → IsActor m v q self.now → (IsSome result ↔ v ≡ sink (plan m)) }
        ensures rows { (m : Setup) (v : ℕ) (q : Progress) → IsActor m v q self.now → IfSome result (λ rows. rows.now ≡ output_rows m q.fired) }
    {
        match &self.part {
            Role::Sink(_, given) => Some(given.done()),
            Role::Source(_) | Role::Shell(_) | Role::Mover => None,
        }
    }

    /// Hands out the rows that the sink has given. None for an actor that is no sink.
    pub fn into_given(self) -> Option<Rows>
        ensures sink { IsSome result ↔ IsSinkRole self.entry.part }
        ensures which { (m : Setup) (v : ℕ) (q : Progress) → IsActor m v q self.entry → (IsSome result ↔ v ≡ sink (plan m)) }
        ensures rows { (m : Setup) (v : ℕ) (q : Progress) → IsActor m v q self.entry
            → IfSome result (λ rows. AreColumnsAtSink m v rows.columns × (rows.bits ≡ output_rows m q.fired)) }
    {
        let Actor { part, .. } = self;
        match part {
            Role::Sink(_, given) => Some(given.into_rows()),
            Role::Source(_) | Role::Shell(_) | Role::Mover => None,
        }
    }
}

//! The clocked run over rows that are held at hand.

ghost use Rattle.std.specs.Prelude.{◌≡◌, ◌↔◌, ◌<◌, ◌≤◌, ℕ, suc, true, false, List, length, map, replicate, option_map, slice_get, IfOk};
ghost use Rattle.std.specs.List.{AllByRecursion};
ghost use Rattle.lid_design.specs.Network.{Table};
ghost use Rattle.lid_system.specs.Systems.{Point, IsWellFormed};
ghost use Rattle.lid_system.specs.Streams.{output_row};
ghost use Rattle.lid_stations.specs.Placements.{links_of, station_count, Fits};
ghost use Rattle.lid_stations.specs.Stations.{actor_count};
ghost use Rattle.lid_clock.specs.Lives.{Life, NeedsRow, IsBelow, fired_after, shown_after};
ghost use Rattle.lid_shell_laws.specs.Setups.{IsInputRow};
ghost use Rattle.lid_clock.specs.Clocks.{IsFreeLife, Clocks, HasCycled, IsClockedRun, IsOver, rows_after, rows_in};

use crate::stream::ClockStream;
use lid_base::Shown;
use lid_stations::Placement;
use lid_system::{Node, System, shells_stand_between_source_and_sink};
use lid_texts::Rows;
use std::alloc::{AllocError, Global};

/// A clocked run over rows that are held at hand.
#[derive(Drop)]
pub struct Clocked<'r> {
    /// The run. It gets its rows from `start` and `ready` alone, and each of its cycles is ended by `keep`.
    pub stream: ClockStream,
    input: &'r Rows,
    /// How many rows the stream was given.
    given: usize,
    /// Room for the output rows.
    outs: Vec<Vec<bool>>,
    /// How many output rows there are.
    done: usize,
    /// How many cycles were made.
    made: u64,
}

/// How many columns the output rows of a system have.
fn width_of(system: &System) -> usize
    requires { IsWellFormed system.now }
    ensures { (b : Table Point) (t : ℕ) → result ≡ length (output_row system.now b t) }
{
    shells_stand_between_source_and_sink();
    let last = system.nodes.len() - 1;
    match &system.nodes.as_slice()[last] {
        Node::Sink { ins, .. } => ins.len(),
        _ => unreachable!(),
    }
}

/// Room for so many rows of a width.
fn room_for(alloc: Global, rows: usize, width: usize) -> Result<Vec<Vec<bool>>, AllocError>
    ensures { IfOk result (λ outs. rows_in outs ≡ replicate rows (replicate width false)) }
{
    let mut outs = Vec::with_capacity(alloc, rows)?;
    for _ in 0..rows {
        outs.push(Vec::from_elem(alloc, false, width)?)?;
    }
    Ok(outs)
}

/// The first row, where there is one.
fn first_of(rows: &Rows) -> Option<&[bool]>
    ensures { option_map (λ row. row.now) result ≡ slice_get rows.now.bits 0 }
{
    match rows.bits.as_slice().first() {
        Some(row) => Some(row.as_slice()),
        None => None,
    }
}

impl<'r> Clocked<'r> {
    /// Starts a run of a system with its stations over these rows: at most 1,000,000, each as wide as the
    /// source. It makes the room for all output rows.
    ///
    /// # Errors
    /// Want of memory.
    pub fn start(
        alloc: Global,
        system: &System,
        placement: &Placement,
        rows: &'r Rows,
    ) -> Result<Clocked<'r>, AllocError>
        requires system { IsWellFormed system.now }
        requires fits { Fits system.now placement.now }
        requires few { length rows.now.bits ≤ 1000000 }
        requires wide { AllByRecursion (IsInputRow system.now) rows.now.bits }
        ensures { IfOk result (λ c. (l : Life) → IsFreeLife l rows.now.bits → l.setup.system ≡ system.now → l.setup.placement ≡ placement.now → Clocks l 0 c) }
    {
        let count = rows.bits.len();
        let stream = ClockStream::start(alloc, system, placement, count as u64, first_of(rows))?;
        let outs = room_for(alloc, count, width_of(system))?;
        Ok(Clocked {
            stream,
            input: rows,
            given: count.min(1),
            outs,
            done: 0,
            made: 0,
        })
    }

    /// Gives the stream its next row where it needs one.
    fn feed(&mut self)
        requires { IsClockedRun self.old }
        ensures { (l : Life) (k : ℕ) → Clocks l k self.old → Clocks l k self.new × ¬ NeedsRow l k self.new.given }
    {
        if self.stream.needs() {
            self.stream
                .give(self.input.bits.as_slice()[self.given].as_slice());
            self.given += 1;
        }
    }

    /// Whether the sink has not yet fired for each row. It gives the stream its next row where it needs one.
    pub fn ready(&mut self) -> bool
        requires { IsClockedRun self.old }
        ensures ran { (l : Life) (k : ℕ) → Clocks l k self.old → Clocks l k self.new × ¬ NeedsRow l k self.new.given }
        ensures below { (l : Life) (k : ℕ) → Clocks l k self.old → (result ≡ true) ↔ IsBelow l k }
    {
        self.feed();
        self.stream.below()
    }

    /// Ends a cycle that the stream has made since the last `ready`, in which nobody was held back: counts it,
    /// and keeps the output row of the sink, where it fired.
    pub fn keep(&mut self)
        requires { (l : Life) × (k : ℕ) × HasCycled l k self.old }
        ensures { (l : Life) (k : ℕ) → HasCycled l k self.old → Clocks l (suc k) self.new }
    {
        self.made += 1;
        if let Some(row) = self.stream.last() {
            self.outs[self.done].copy_from_slice(row);
            self.done += 1;
        }
    }

    /// How many cycles were made since the start.
    pub fn made(&self) -> u64
        ensures { (l : Life) (k : ℕ) → Clocks l k self.now → result ≡ k }
    {
        self.made
    }

    /// Makes a cycle, in which nobody is held back, where the sink has not yet fired for each row. Answers
    /// whether it made one.
    pub fn cycle(&mut self) -> bool
        requires { IsClockedRun self.old }
        ensures made { (l : Life) (k : ℕ) → Clocks l k self.old → result ≡ true → Clocks l (suc k) self.new }
        ensures still { (l : Life) (k : ℕ) → Clocks l k self.old → result ≡ false → Clocks l k self.new }
        ensures below { (l : Life) (k : ℕ) → Clocks l k self.old → (result ≡ true) ↔ IsBelow l k }
    {
        if !self.ready() {
            return false;
        }
        self.stream.cycle();
        self.keep();
        true
    }

    /// Makes cycles until the sink has fired for each row, and answers how many were made since the start: the
    /// least number after which it has. That is at most `(q*N + lag)/p`, rounded up, where p/q is the ratio of
    /// the sink's component, lag the sink's, and N the number of rows.
    pub fn run(&mut self) -> u64
        requires { IsClockedRun self.old }
        ensures ran { (l : Life) (k : ℕ) → Clocks l k self.old → Clocks l result self.new }
        ensures over { (l : Life) (k : ℕ) → Clocks l k self.old → IsOver l result }
    {
        while self.cycle() {}
        self.made
    }

    /// What a station shows.
    pub fn show(&self, station: u32) -> Shown
        requires { (l : Life) × (k : ℕ) × Clocks l k self.now × (station < station_count l.setup.placement.relays) }
        ensures { (l : Life) (k : ℕ) → Clocks l k self.now → result ≡ shown_after l k station }
    {
        self.stream.show(station)
    }

    /// How often an actor has fired.
    pub fn fired(&self, actor: u32) -> u64
        requires { (l : Life) × (k : ℕ) × Clocks l k self.now × (actor < actor_count (links_of l.setup.system) l.setup.placement) }
        ensures { (l : Life) (k : ℕ) → Clocks l k self.now → result ≡ fired_after l k actor }
    {
        self.stream.fired(actor)
    }

    /// The output rows of the cycles made so far, in order.
    pub fn rows(&self) -> &[Vec<bool>]
        requires { IsClockedRun self.now }
        ensures { (l : Life) (k : ℕ) → Clocks l k self.now → map (λ row. row.items) result.now ≡ rows_after l k }
    {
        &self.outs[..self.done]
    }
}

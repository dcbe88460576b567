//! A run between its cycles.

ghost use Rattle.std.specs.Prelude.{◌≡◌, ◌≤◌, ◌<◌, ◌+◌, ◌^◌, ◌++◌, ℕ, min, Bool, List, [], length, Option, None, Some, IfOk, IfErr, OnOk};
ghost use Rattle.lid_base.specs.declared.outside.Fetch.{Fetch};
ghost use Rattle.lid_base.specs.Outside.{Rose};
ghost use Rattle.lid_base.specs.Each.{from_each};
ghost use Rattle.lid_stations.specs.Placements.{station_count};
ghost use Rattle.std.specs.Option.{is_some};
ghost use Rattle.lid_clock.specs.Lives.{Life, fired_after, shown_after};
ghost use Rattle.lid_clock.specs.Ran.{lent, IsFirstRow};
ghost use Rattle.lid_stall_text.specs.Holds.{Ascend, listed, stalled_line};
ghost use Rattle.lid_top_clock.specs.Courses.{RanBy};
ghost use Rattle.lid_texts_feed.specs.Fetching.{HasGiven, GivesRow};
ghost use Rattle.lid_top_clock.specs.RunTexts.{cells_after, cycles_traced, traced, end_text};
ghost use Rattle.lid_top_clock.specs.Runnings.{ClockRun, LifeBegins, IsRunCause, source_columns};
ghost use Rattle.lid_top_clock.specs.Stepping.{HasBegun, HasStarted, FeedGives, IsRunning, NeedsNoRow, HasNotEnded, IsFed, IsFedOn, HasMadeCycle};
ghost use Rattle.lid_top_clock.specs.Refetching.{FedBy, Feeding};

use crate::course::Course;
use crate::fault::RunFault;
use crate::task::Task;
use crate::workers::Workers;
use lid_base::{Gate, Items, Shelf, Shown};
use lid_base_lines::append_number_line;
use lid_stall::Stall;
use lid_texts::{Trace, print_cycles, print_trace};
use lid_texts_feed::RowFeed;
use std::alloc::{AllocError, Global};
use std::mem;
use std::thread::Threads;

/// A run between its cycles.
#[derive(Drop)]
pub(crate) struct Running {
    alloc: Global,
    pub(crate) stream: Course,
    /// How many cycles were made.
    made: u64,
    /// How many rows were given.
    given: u64,
    /// How many stations there are.
    stations: u32,
    /// For how many cycles at most a trace is wanted.
    trace: Option<u64>,
    /// Whether it is told in how many cycles somebody was held.
    told: bool,
    /// What the stations showed in these.
    cells: Vec<Shown>,
}

/// The next row of a feed that has given so many, where there must be one.
fn next_row<S: Shelf>(
    shelf: &mut S,
    feed: &mut RowFeed,
    given: u64,
) -> Result<Items<bool>, RunFault>
    ensures ok { (r : ClockRun) (rows : List (List Bool)) → r.held ≡ S.held shelf.old feed.old.name → FeedGives r feed.old rows
        → IfOk result (GivesRow r.held (source_columns r.system) (length r.columns) feed.new rows) }
    ensures err { (r : ClockRun) (rows : List (List Bool)) → r.held ≡ S.held shelf.old feed.old.name → FeedGives r feed.old rows → given ≡ length rows
        → given < r.rows
        → IfErr result (IsRunCause r rows (Rose (S.faults shelf.old feed.old.name) (S.faults shelf.new feed.old.name)) ⊥) }
    ensures fetched { (r : ClockRun) (rows : List (List Bool)) (first : Option (List Fetch)) → r.held ≡ S.held shelf.old feed.old.name
        → FeedGives r feed.old rows → length rows < r.rows → FedBy S.whole r (length rows) first (S.fetches shelf.old) feed.old
        → Feeding S.whole r feed.old.name (length rows + 1) first (S.fetches shelf.new) feed.new (S.faults shelf.old) (S.faults shelf.new) result }
    ensures name { feed.new.name ≡ feed.old.name }
    ensures kept { S.held shelf.new ≡ S.held shelf.old }
    ensures grows { (q : List ℕ) → S.faults shelf.old q ≤ S.faults shelf.new q }
{
    match feed.next(shelf) {
        Ok(Some(row)) => Ok(row),
        Ok(None) => Err(RunFault::Few { found: given }),
        Err(fault) => Err(RunFault::Feed(fault)),
    }
}

/// Appends what each station shows.
fn push_cells(stream: &Course, stations: u32, cells: &mut Vec<Shown>) -> Result<(), AllocError>
    requires { (l : Life) × (k : ℕ) × (g : ℕ) × RanBy l k g stream.now × (stations ≡ station_count l.setup.placement.relays) }
    ensures { (l : Life) (k g : ℕ) → RanBy l k g stream.now → OnOk result (cells.new.items ≡ cells.old.items ++ from_each (shown_after l k) 0 stations) }
{
    for station in 0..stations {
        cells.push(stream.show(station))?;
    }
    Ok(())
}

/// How often each of so many nodes has fired.
fn firings(alloc: Global, stream: &Course, nodes: u32) -> Result<Vec<u64>, AllocError>
    requires { (l : Life) × (k : ℕ) × (g : ℕ) × RanBy l k g stream.now × (nodes ≡ length l.setup.system.nodes) }
    ensures { (l : Life) (k g : ℕ) → RanBy l k g stream.now → IfOk result (λ fired. fired.items ≡ from_each (fired_after l k) 0 nodes) }
{
    let mut fired = Vec::new(alloc);
    for node in 0..nodes {
        fired.push(stream.fired(node))?;
    }
    Ok(fired)
}

impl Running {
    /// A run of a system with its stations over so many rows, of which the first is this, for so many workers.
    fn begin(
        alloc: Global,
        task: &Task<'_>,
        first: Option<&[bool]>,
        stalls: Option<Items<Stall>>,
        workers: u32,
    ) -> Result<Running, RunFault>
        requires few { task.now.rows ≤ 1000000 }
        requires first { IsFirstRow task.now.placed.now.system task.now.rows (lent first) }
        requires ascend { Ascend (listed stalls) }
        ensures begun { IfOk result (HasBegun task.now.placed.now.system task.now.placed.now.placement task.now.rows (lent first.entry) task.now.trace stalls) }
        ensures cause { IfErr result (λ fault. fault ≡ RunFault.Memory) }
    {
        let placed = task.placed;
        let stations = placed.placement.caps.len() as u32;
        let told = stalls.is_some();
        let Ok(stream) = Course::start(alloc, task, first, stalls, workers) else {
            return Err(RunFault::Memory);
        };
        Ok(Running {
            alloc,
            stream,
            made: 0,
            given: task.rows.min(1),
            stations,
            trace: task.trace,
            told,
            cells: Vec::new(alloc),
        })
    }

    /// Starts a run over the rows of a feed that has given none, for which it fetches the first.
    pub(crate) fn start<S: Shelf>(
        alloc: Global,
        shelf: &mut S,
        task: &Task<'_>,
        feed: &mut RowFeed,
        stalls: Option<Items<Stall>>,
        workers: u32,
    ) -> Result<Running, RunFault>
        requires few { task.now.rows ≤ 1000000 }
        requires ascend { Ascend (listed stalls) }
        requires feeds { (columns : List (List ℕ)) × HasGiven (S.held shelf.old feed.old.name)
            (source_columns task.now.placed.now.system) (length columns) feed.old [] }
        ensures ok { (r : ClockRun) → r.system ≡ task.now.placed.now.system → r.placement ≡ task.now.placed.now.placement
            → r.rows ≡ task.now.rows → r.trace ≡ task.now.trace → r.stalls ≡ stalls → r.held ≡ S.held shelf.old feed.old.name → FeedGives r feed.old []
            → IfOk result (λ run. HasStarted r run feed.new) }
        ensures made { IfOk result (λ run. run.made ≡ 0) }
        ensures err { (r : ClockRun) → r.system ≡ task.now.placed.now.system → r.rows ≡ task.now.rows → r.held ≡ S.held shelf.old feed.old.name
            → FeedGives r feed.old []
            → IfErr result (IsRunCause r [] (Rose (S.faults shelf.old feed.old.name) (S.faults shelf.new feed.old.name)) ⊥) }
        ensures fetched { (r : ClockRun) (first : Option (List Fetch)) → r.rows ≡ task.now.rows → r.held ≡ S.held shelf.old feed.old.name
            → FeedGives r feed.old [] → FedBy S.whole r 0 first (S.fetches shelf.old) feed.old
            → Feeding S.whole r feed.old.name (min 1 r.rows) first (S.fetches shelf.new) feed.new (S.faults shelf.old) (S.faults shelf.new) result }
        ensures name { feed.new.name ≡ feed.old.name }
        ensures kept { S.held shelf.new ≡ S.held shelf.old }
        ensures grows { (q : List ℕ) → S.faults shelf.old q ≤ S.faults shelf.new q }
    {
        let placed = task.placed;
        let _ = &placed.system;
        if task.rows == 0 {
            return Running::begin(alloc, task, None, stalls, workers);
        }
        let row = match next_row(shelf, feed, 0) {
            Ok(row) => row,
            Err(fault) => return Err(fault),
        };
        Running::begin(alloc, task, Some(row.as_slice()), stalls, workers)
    }

    /// Fetches and gives the next row, where it is needed.
    fn feed_on<S: Shelf>(&mut self, shelf: &mut S, feed: &mut RowFeed) -> Result<(), RunFault>
        requires { (r : ClockRun) × (given : List (List Bool)) × IsFed r (S.held shelf.old feed.old.name) self.old feed.old given }
        ensures ok { (r : ClockRun) (given : List (List Bool)) → IsFed r (S.held shelf.old feed.old.name) self.old feed.old given
            → OnOk result (IsFedOn r given self.new feed.new) }
        ensures made { OnOk result (self.new.made ≡ self.old.made) }
        ensures err { (r : ClockRun) (given : List (List Bool)) → IsFed r (S.held shelf.old feed.old.name) self.old feed.old given
            → IfErr result (IsRunCause r given (Rose (S.faults shelf.old feed.old.name) (S.faults shelf.new feed.old.name)) ⊥) }
        ensures fetched { (r : ClockRun) (given : List (List Bool)) (first : Option (List Fetch))
            → IsFed r (S.held shelf.old feed.old.name) self.old feed.old given
            → FedBy S.whole r self.old.given first (S.fetches shelf.old) feed.old
            → Feeding S.whole r feed.old.name self.new.given first (S.fetches shelf.new) feed.new (S.faults shelf.old) (S.faults shelf.new) result }
        ensures name { feed.new.name ≡ feed.old.name }
        ensures kept { S.held shelf.new ≡ S.held shelf.old }
        ensures grows { (q : List ℕ) → S.faults shelf.old q ≤ S.faults shelf.new q }
    {
        if !self.stream.needs() {
            return Ok(());
        }
        let row = match next_row(shelf, feed, self.given) {
            Ok(row) => row,
            Err(fault) => return Err(fault),
        };
        self.stream.give(row.as_slice());
        self.given += 1;
        Ok(())
    }

    /// Keeps what the stations show, where that is wanted of this cycle.
    fn show(&mut self) -> Result<(), AllocError>
        requires { (r : ClockRun) × (given : List (List Bool)) × IsRunning r self.old given }
        ensures shown { (r : ClockRun) (given : List (List Bool)) → IsRunning r self.old given
            → OnOk result ((l : Life) → LifeBegins r given l → self.new.cells.items ≡ cells_after l (cycles_traced r.trace (self.old.made + 1))) }
        ensures rest { self.new ≡ record self.old { cells = self.new.cells } }
    {
        if let Some(most) = self.trace {
            if self.made < most {
                return push_cells(&self.stream, self.stations, &mut self.cells);
            }
        }
        Ok(())
    }

    /// Makes a cycle of a run that is ready and has not ended.
    fn step<R: Threads + Sync, G: Gate>(
        &mut self,
        workers: &Workers<'_, R, G>,
    ) -> Result<(), AllocError>
        requires some { 0 < workers.now.many }
        requires ready { (r : ClockRun) × (given : List (List Bool)) × IsRunning r self.old given × NeedsNoRow r self.old given × HasNotEnded r self.old given }
        ensures ok { (r : ClockRun) (given : List (List Bool)) → IsRunning r self.old given → NeedsNoRow r self.old given → HasNotEnded r self.old given
            → OnOk result (IsRunning r self.new given) }
        ensures one { OnOk result (self.new.made ≡ self.old.made + 1) }
        ensures few { OnOk result (self.new.made < 2 ^ 64) }
    {
        self.show()?;
        self.stream.cycle(workers, self.made);
        self.made += 1;
        Ok(())
    }

    /// Makes a cycle of a run that has not ended, before which it fetches and gives the next row, where
    /// it is needed.
    pub(crate) fn go<S: Shelf, R: Threads + Sync, G: Gate>(
        &mut self,
        shelf: &mut S,
        feed: &mut RowFeed,
        workers: &Workers<'_, R, G>,
    ) -> Result<(), RunFault>
        requires some { 0 < workers.now.many }
        requires fed { (r : ClockRun) × (given : List (List Bool)) × IsFed r (S.held shelf.old feed.old.name) self.old feed.old given
            × HasNotEnded r self.old given }
        ensures ok { (r : ClockRun) (given : List (List Bool)) → IsFed r (S.held shelf.old feed.old.name) self.old feed.old given → HasNotEnded r self.old given
            → OnOk result (HasMadeCycle r given self.old.made self.new feed.new) }
        ensures err { (r : ClockRun) (given : List (List Bool)) → IsFed r (S.held shelf.old feed.old.name) self.old feed.old given
            → HasNotEnded r self.old given
            → IfErr result (IsRunCause r given (Rose (S.faults shelf.old feed.old.name) (S.faults shelf.new feed.old.name)) ⊥) }
        ensures fetched { (r : ClockRun) (given : List (List Bool)) (first : Option (List Fetch))
            → IsFed r (S.held shelf.old feed.old.name) self.old feed.old given
            → HasNotEnded r self.old given
            → FedBy S.whole r self.old.given first (S.fetches shelf.old) feed.old
            → Feeding S.whole r feed.old.name self.new.given first (S.fetches shelf.new) feed.new (S.faults shelf.old) (S.faults shelf.new) result }
        ensures name { feed.new.name ≡ feed.old.name }
        ensures kept { S.held shelf.new ≡ S.held shelf.old }
        ensures grows { (q : List ℕ) → S.faults shelf.old q ≤ S.faults shelf.new q }
    {
        if let Err(fault) = self.feed_on(shelf, feed) {
            return Err(fault);
        }
        let Ok(()) = self.step(workers) else {
            return Err(RunFault::Memory);
        };
        Ok(())
    }

    /// Appends in how many cycles somebody was held, where stalls are given.
    fn append_stalled(&self, into: &mut Vec<u8>) -> Result<(), AllocError>
        ensures { (r : ClockRun) (given : List (List Bool)) (l : Life) → IsRunning r self.now given → LifeBegins r given l
            → OnOk result (into.new.items ≡ into.old.items ++ stalled_line r.stalls self.now.made) }
    {
        if !self.told {
            return Ok(());
        }
        append_number_line(b"stalled", &[self.stream.stalled()], into)
    }

    /// Appends the trace, where one is wanted.
    fn append_trace(&mut self, into: &mut Vec<u8>) -> Result<(), AllocError>
        requires { (r : ClockRun) × (given : List (List Bool)) × IsRunning r self.old given }
        ensures { (r : ClockRun) (given : List (List Bool)) (l : Life) → IsRunning r self.old given → LifeBegins r given l
            → OnOk result (into.new.items ≡ into.old.items ++ traced l r.trace self.old.made) }
    {
        let Some(most) = self.trace else {
            return Ok(());
        };
        let cells = mem::replace(&mut self.cells, Vec::new(self.alloc));
        let trace = Trace {
            stations: self.stations,
            cycles: self.made.min(most),
            cells: Items::from_vec(cells),
        };
        print_trace(&trace, into)
    }

    /// Appends how many cycles were made, how often each of so many nodes has fired, in how many cycles
    /// somebody was held, where stalls are given, and the trace, where one is wanted.
    pub(crate) fn append_end(&mut self, nodes: u32, into: &mut Vec<u8>) -> Result<(), AllocError>
        requires { (r : ClockRun) × (given : List (List Bool)) × IsRunning r self.old given × (nodes ≡ length r.system.nodes) }
        ensures { (r : ClockRun) (given : List (List Bool)) (l : Life) → IsRunning r self.old given → LifeBegins r given l → nodes ≡ length r.system.nodes
            → OnOk result (into.new.items ≡ into.old.items ++ end_text l r.stalls r.trace self.old.made) }
    {
        let fired = firings(self.alloc, &self.stream, nodes)?;
        print_cycles(self.made, &fired, into)?;
        self.append_stalled(into)?;
        self.append_trace(into)
    }
}

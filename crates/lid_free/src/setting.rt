//! What a free run is set out with: all that takes memory.

ghost use Rattle.std.specs.Prelude.{◌≡◌, ◌<◌, ◌≤◌, ◌*◌, length, IfOk, OnOk, slice_index_or};
ghost use Rattle.std.specs.List.{AllByRecursion};
ghost use Rattle.lid_graph.specs.Walks.{no_edge};
ghost use Rattle.lid_system.specs.Systems.{IsWellFormed};
ghost use Rattle.lid_stations.specs.Placements.{Fits};
ghost use Rattle.lid_shell_laws.specs.Setups.{Setup, IsInputRow};
ghost use Rattle.lid_texts_packed.specs.Input.{input_of};
ghost use Rattle.lid_walk.specs.Setups.{IsSetupOf};
ghost use Rattle.lid_free.specs.Settings.{AreBoards, AreEndsGiven, IsCrewOf, IsRoomFor, IsSetOut};
ghost use Rattle.lid_free.specs.Workers.{AreOwners};

use crate::course::StrictCourse;
use crate::rules::runs_go_by_rules;
use lid_base::Tally;
use lid_board::{Board, Hand};
use lid_free_crew::{Worker, deal, hire};
use lid_graph::Edge;
use lid_shell::Actor;
use lid_station::PlainBoard;
use lid_stations::{Placed, Placement, marking};
use lid_system::System;
use lid_texts_packed::InputRows;
use lid_walk::{all_actors, first_tokens};
use std::alloc::{AllocError, Global};

/// The shared board with the hand that keeps its ends, and the plain board that it ends as.
#[derive(Drop)]
pub(crate) struct Boards {
    pub(crate) board: Board,
    pub(crate) keeper: Hand,
    pub(crate) plain: PlainBoard,
}

/// The boards of a run at its start.
fn start_boards(
    alloc: Global,
    placed: &Placed<'_>,
    rows: InputRows<'_>,
) -> Result<Boards, AllocError>
    requires few { length (input_of rows) ≤ 1000000 }
    requires wide { AllByRecursion (IsInputRow placed.now.system) (input_of rows) }
    ensures { IfOk result (λ boards. (m : Setup) → IsSetupOf m placed.now.system placed.now.placement (input_of rows.entry) → AreBoards m boards) }
{
    runs_go_by_rules();
    let firsts = first_tokens(alloc, placed, rows)?;
    let course = StrictCourse {
        system: placed.system,
        placement: placed.placement,
        rows,
    };
    let caps = placed.placement.caps.as_slice();
    let plain = PlainBoard::start(alloc, firsts.as_slice(), caps)?;
    let (board, keeper) = Board::start(alloc, firsts.as_slice(), caps, &course)?;
    Ok(Boards {
        board,
        keeper,
        plain,
    })
}

/// The transition at which an edge begins; 0 past the last edge.
fn from_at(edges: &[Edge], number: usize) -> u32
    ensures { result ≡ (slice_index_or edges.now number no_edge).from }
{
    match edges.get(number) {
        Some(edge) => edge.from,
        None => 0,
    }
}

/// The actor that owns each end of a station: the one that fills it, and the one that drains it.
fn owners_of(alloc: Global, placed: &Placed<'_>) -> Result<Vec<u32>, AllocError>
    ensures { IfOk result (λ owners. AreOwners placed.now.system placed.now.placement (2 * length placed.now.placement.caps) owners.items) }
{
    runs_go_by_rules();
    let graph = marking(alloc, placed.system, placed.placement)?;
    let mut owners = Vec::new(alloc);
    for end in 0..2 * placed.placement.caps.len() {
        owners.push(from_at(graph.edges.as_slice(), end))?;
    }
    Ok(owners)
}

/// Room for what a run leaves.
#[derive(Drop)]
pub(crate) struct Room {
    /// A tally for each worker.
    pub(crate) tallies: Vec<Tally>,
    /// A number for each actor.
    pub(crate) fired: Vec<u64>,
    /// A number for each station.
    pub(crate) passed: Vec<u64>,
}

impl Room {
    /// Room for so many workers, actors and stations.
    fn make(alloc: Global, workers: u32, actors: usize, stations: usize) -> Result<Room, AllocError>
        ensures { IfOk result (IsRoomFor workers actors stations) }
    {
        let none = Tally {
            turns: 0,
            fired: 0,
            voids: 0,
            stops: 0,
            dones: 0,
        };
        let fired = vec![in alloc; 0; actors]?;
        let passed = vec![in alloc; 0; stations]?;
        let tallies = vec![in alloc; none; workers as usize]?;
        Ok(Room {
            tallies,
            fired,
            passed,
        })
    }
}

/// The workers of a run, how many actors they have, and room for these.
#[derive(Drop)]
pub(crate) struct Crew<'r> {
    pub(crate) workers: Vec<Worker<'r>>,
    pub(crate) actors: usize,
    pub(crate) back: Vec<Actor<'r>>,
}

impl Crew<'_> {
    /// Room for what so many workers leave of its actors and of so many stations.
    fn room(&self, alloc: Global, workers: u32, stations: usize) -> Result<Room, AllocError>
        ensures { IfOk result (IsRoomFor workers self.now.actors stations) }
    {
        Room::make(alloc, workers, self.actors, stations)
    }
}

/// The workers of a run, each with its share of the ends and of the actors. The keeper has given all ends.
fn start_crew<'r>(
    alloc: Global,
    placed: &Placed<'_>,
    rows: InputRows<'r>,
    boards: &mut Boards,
    workers: u32,
) -> Result<Crew<'r>, AllocError>
    requires few { length (input_of rows) ≤ 1000000 }
    requires wide { AllByRecursion (IsInputRow placed.now.system) (input_of rows) }
    requires some { 0 < workers }
    requires boards { (m : Setup) → IsSetupOf m placed.now.system placed.now.placement (input_of rows) → AreBoards m boards.old }
    ensures given { OnOk result ((m : Setup) → IsSetupOf m placed.now.system placed.now.placement (input_of rows.entry) → AreEndsGiven m boards.new) }
    ensures crew { IfOk result (λ crew. (m : Setup) → IsSetupOf m placed.now.system placed.now.placement (input_of rows.entry)
        → IsCrewOf m boards.new.board workers crew) }
{
    runs_go_by_rules();
    let _ = &placed.system;
    let owners = owners_of(alloc, placed)?;
    let mut hired = hire(
        alloc,
        &boards.board,
        &mut boards.keeper,
        owners.as_slice(),
        workers,
    )?;
    let dealt = all_actors(alloc, placed, rows)?;
    let actors = dealt.len();
    deal(dealt, hired.as_mut_slice())?;
    Ok(Crew {
        workers: hired,
        actors,
        back: Vec::with_capacity(alloc, actors)?,
    })
}

/// A free run that was set out: all that it needs. It holds all memory that it will take.
#[derive(Drop)]
pub struct Setting<'r> {
    pub(crate) boards: Boards,
    pub(crate) crew: Crew<'r>,
    pub(crate) room: Room,
    /// How many input rows there are.
    pub(crate) rows: usize,
}

/// Sets out a free run of a system with its stations over input rows, at most 1,000,000 and each as wide as the
/// source, on so many workers: takes all memory that it needs. Actor a belongs to worker a mod the number of
/// workers.
///
/// # Errors
/// Memory is wanting.
pub fn set_out<'r>(
    alloc: Global,
    system: &System,
    placement: &Placement,
    rows: InputRows<'r>,
    workers: u32,
) -> Result<Setting<'r>, AllocError>
    requires system { IsWellFormed system.now }
    requires fits { Fits system.now placement.now }
    requires few { length (input_of rows) ≤ 1000000 }
    requires wide { AllByRecursion (IsInputRow system.now) (input_of rows) }
    requires some { 0 < workers }
    ensures setup { OnOk result ((m : Setup) × IsSetupOf m system.now placement.now (input_of rows.entry)) }
    ensures set { IfOk result (λ setting. (m : Setup) → IsSetupOf m system.now placement.now (input_of rows.entry) → IsSetOut m workers setting) }
{
    runs_go_by_rules();
    let placed = Placed { system, placement };
    let mut boards = start_boards(alloc, &placed, rows)?;
    let crew = start_crew(alloc, &placed, rows, &mut boards, workers)?;
    let room = crew.room(alloc, workers, placement.caps.len())?;
    Ok(Setting {
        boards,
        crew,
        room,
        rows: rows.len(),
    })
}

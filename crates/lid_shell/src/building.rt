//! Desks and sinks before a run has begun.

ghost use Rattle.std.specs.Prelude.{◌≡◌, [], ◌∷◌, length, IfOk};
ghost use Rattle.std.specs.List.{All};
ghost use Rattle.lid_system.specs.Systems.{IsWellFormed};
ghost use Rattle.lid_shell.specs.Starts.{IsLane, IsNewDesk, IsNewGiven, AreSinkColumns};

use crate::desk::Desk;
use crate::part::Given;
use lid_base::{Items, Name, copy_names};
use lid_system::{Node, System, shells_stand_between_source_and_sink};
use smallvec::SmallVec;
use std::alloc::{AllocError, Global};

/// Stations, and room for a token of each.
#[derive(Drop)]
pub(crate) struct Lane {
    pub(crate) stations: SmallVec<u32, 1>,
    pub(crate) tokens: SmallVec<u32, 1>,
}

/// The lane of these stations.
fn lane_of(alloc: Global, stations: &[u32]) -> Result<Lane, AllocError>
    ensures { IfOk result (IsLane stations.now) }
{
    let tokens = SmallVec::from_elem(alloc, 0u32, stations.len())?;
    let stations = SmallVec::from_slice(alloc, stations)?;
    Ok(Lane { stations, tokens })
}

/// The lane of one station. It takes no memory.
fn lane_of_one(alloc: Global, station: u32) -> Lane
    ensures { IsLane (station ∷ []) result }
{
    Lane {
        stations: SmallVec::from_buf(alloc, [station]),
        tokens: SmallVec::from_buf(alloc, [0]),
    }
}

/// The desk of an actor that has not fired, which drains and fills the stations of two lanes.
fn desk_of(drained: Lane, filled: Lane, cap: u64) -> Desk
    requires drained { length drained.tokens.items ≡ length drained.stations.items }
    requires filled { length filled.tokens.items ≡ length filled.stations.items }
    ensures { IsNewDesk drained.stations.items filled.stations.items cap result }
{
    Desk {
        ins: drained.stations,
        outs: filled.stations,
        taken: drained.tokens,
        tokens: filled.tokens,
        cap,
        fired: 0,
        position: 0,
    }
}

/// The desk of an actor that has not fired, which drains and fills these stations.
pub(crate) fn new_desk(
    alloc: Global,
    ins: &[u32],
    outs: &[u32],
    cap: u64,
) -> Result<Desk, AllocError>
    ensures { IfOk result (IsNewDesk ins.now outs.now cap) }
{
    let drained = lane_of(alloc, ins)?;
    let filled = lane_of(alloc, outs)?;
    Ok(desk_of(drained, filled, cap))
}

/// The desk of a mover that has not fired. It takes no memory.
pub(crate) fn mover_desk(alloc: Global, from: u32, to: u32, cap: u64) -> Desk
    ensures { IsNewDesk (from ∷ []) (to ∷ []) cap result }
{
    desk_of(lane_of_one(alloc, from), lane_of_one(alloc, to), cap)
}

/// So many rows of a width.
fn make_rows(alloc: Global, width: usize, rows: u64) -> Result<Vec<Items<bool>>, AllocError>
    ensures many { IfOk result (λ made. length made.items ≡ rows) }
    ensures wide { IfOk result (λ made. All (λ row. length row ≡ width) made.items) }
{
    let mut made = Vec::with_capacity(alloc, rows as usize)?;
    for _i in 0..rows {
        made.push(Items::from_vec(Vec::from_elem(alloc, false, width)?))?;
    }
    Ok(made)
}

/// The names of the columns of the sink.
fn sink_columns(alloc: Global, system: &System) -> Result<Items<Name>, AllocError>
    requires { IsWellFormed system.now }
    ensures { IfOk result (AreSinkColumns system.now) }
{
    shells_stand_between_source_and_sink();
    match &system.nodes.as_slice()[system.nodes.len() - 1] {
        Node::Sink { columns, .. } => copy_names(alloc, columns.as_slice()),
        _ => unreachable!(),
    }
}

/// The rows of a sink that has given none, and room for so many.
pub(crate) fn new_given(
    alloc: Global,
    system: &System,
    width: usize,
    rows: u64,
) -> Result<Given, AllocError>
    requires { IsWellFormed system.now }
    ensures { IfOk result (IsNewGiven system.now width rows) }
{
    let columns = sink_columns(alloc, system)?;
    let rows = make_rows(alloc, width, rows)?;
    Ok(Given {
        columns,
        rows,
        count: 0,
        alloc,
    })
}

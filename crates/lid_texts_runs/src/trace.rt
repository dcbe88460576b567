//! Traces: what each station showed in each of the first cycles of a run.

ghost use Rattle.std.specs.Prelude.{◌≡◌, ◌*◌, ◌≤◌, ◌<◌, ◌++◌, min, map, length, OnOk, OnErr, IfErr};
ghost use Rattle.std.specs.List.{join_with_byte};
ghost use Rattle.lid_base.specs.Lists.{Keeps};
ghost use Rattle.lid_base_lines.specs.Texts.{line_text};
ghost use Rattle.lid_texts_runs.specs.Runs.{cell_word, cycle_words, cycles_from, trace_text};

use crate::pieces::{Piece, append_pieces};
use lid_base::{Items, Shown, Which, append_number};
use lid_base_lines::cut_back;
use std::alloc::AllocError;
use thiserror::Error;

/// The most cells of a trace: stations times cycles.
const MOST_CELLS: u64 = 1_048_576;

/// What `stations` stations showed in `cycles` cycles. The cell of station s in cycle k stands at place
/// `k * stations + s`.
#[derive(Drop)]
pub struct Trace {
    pub stations: u32,
    pub cycles: u64,
    pub cells: Items<Shown>,
}

/// Why a trace is not made.
#[derive(Clone, Copy, Debug, PartialEq, Eq, Error)]
pub enum TraceFault {
    /// The number of what is counted, which is over the limit.
    #[error("{count} is over the limit")]
    Limit { which: Which, count: u64 },
}

/// Whether a trace of so many stations and cycles is within the limit of 1,048,576 cells. It takes no
/// memory.
///
/// # Errors
/// `Limit` of `TraceCells`, with the number of cells, told as at most 2^64 - 1.
pub fn trace_fits(stations: u32, cycles: u64) -> Result<(), TraceFault>
    ensures ok { OnOk result (stations * cycles ≤ 1048576) }
    ensures err { IfErr result (λ e. (e ≡ TraceFault.Limit Which.TraceCells (min (stations * cycles) 18446744073709551615))) }
    ensures over { OnErr result (1048576 < stations * cycles) }
{
    let cells = u64::from(stations).saturating_mul(cycles);
    if cells > MOST_CELLS {
        return Err(TraceFault::Limit {
            which: Which::TraceCells,
            count: cells,
        });
    }
    Ok(())
}

/// Appends the word of a cell.
fn append_cell(cell: &Shown, into: &mut Vec<u8>) -> Result<(), AllocError>
    ensures ok { OnOk result (into.new.items ≡ into.old.items ++ cell_word cell.now) }
    ensures kept { Keeps into.old.items into.new.items }
{
    if !cell.valid {
        into.push(b'.')?;
        return Ok(());
    }
    append_number(u64::from(cell.token), into)?;
    if cell.stop {
        into.push(b'!')?;
    }
    Ok(())
}

/// Appends the words of the stations with a blank between each two.
fn append_cells(cells: &[Shown], into: &mut Vec<u8>) -> Result<(), AllocError>
    ensures ok { OnOk result (into.new.items ≡ into.old.items ++ join_with_byte 32 (map cell_word cells.now)) }
    ensures kept { Keeps into.old.items into.new.items }
{
    let mut rest = cells;
    while let [cell, after @ ..] = rest {
        append_cell(cell, into)?;
        if !after.is_empty() {
            into.push(b' ')?;
        }
        rest = after;
    }
    Ok(())
}

/// Appends the line of a cycle.
#[tactic(auto, unfolding(lid_base_lines::specs::Texts::line_text))]
fn append_cycle(stations: u32, cells: &[Shown], into: &mut Vec<u8>) -> Result<(), AllocError>
    ensures ok { OnOk result (into.new.items ≡ into.old.items ++ line_text (cycle_words stations cells.now)) }
    ensures kept { Keeps into.old.items into.new.items }
{
    if stations == 0 {
        return append_pieces(&[Piece::Text(b"-")], into);
    }
    append_cells(cells, into)?;
    into.push(b'\n')?;
    Ok(())
}

/// Appends the lines of so many cycles.
fn append_cycles(
    stations: u32,
    cycles: u64,
    cells: &[Shown],
    into: &mut Vec<u8>,
) -> Result<(), AllocError>
    requires { length cells.now ≡ stations * cycles }
    ensures ok { OnOk result (into.new.items ≡ into.old.items ++ cycles_from stations cycles cells.now) }
    ensures kept { Keeps into.old.items into.new.items }
{
    let width = stations as usize;
    let mut left = cycles;
    let mut rest = cells;
    while left > 0 {
        let (row, after) = rest.split_at(width);
        append_cycle(stations, row, into)?;
        left -= 1;
        rest = after;
    }
    Ok(())
}

/// Appends the lines.
#[tactic(auto, unfolding(crate::specs::Runs::trace_text))]
fn append_trace(trace: &Trace, into: &mut Vec<u8>) -> Result<(), AllocError>
    requires { length trace.now.cells ≡ trace.now.stations * trace.now.cycles }
    ensures ok { OnOk result (into.new.items ≡ into.old.items ++ trace_text trace.now) }
    ensures kept { Keeps into.old.items into.new.items }
{
    let head = [
        Piece::Text(b"trace"),
        Piece::Number(u64::from(trace.stations)),
        Piece::Number(trace.cycles),
    ];
    append_pieces(&head, into)?;
    append_cycles(trace.stations, trace.cycles, trace.cells.as_slice(), into)
}

/// Appends a trace: how many stations and cycles it has, and a line for each cycle, with a word for each
/// station in order.
///
/// # Errors
/// Want of memory. Then nothing was appended.
pub fn print_trace(trace: &Trace, into: &mut Vec<u8>) -> Result<(), AllocError>
    requires { length trace.now.cells ≡ trace.now.stations * trace.now.cycles }
    ensures ok { OnOk result (into.new.items ≡ into.old.items ++ trace_text trace.now) }
    ensures err { OnErr result (into.new.items ≡ into.old.items) }
{
    cut_back(into.len(), append_trace(trace, into), into)
}

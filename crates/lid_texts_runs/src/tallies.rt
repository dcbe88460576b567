//! What the workers of a free run counted.

ghost use Rattle.std.specs.Prelude.{◌≡◌, ◌++◌, OnOk, OnErr};
ghost use Rattle.lid_base.specs.Lists.{Keeps};
ghost use Rattle.lid_texts_runs.specs.Runs.{tally_words, workers_text, tallies_text};
ghost use Rattle.lid_texts_runs.specs.Pieces.{pieces_text};
ghost use Rattle.lid_base_lines.specs.Texts.{line_text};

use crate::pieces::{Piece, append_pieces};
use lid_base::Tally;
use lid_base_lines::cut_back;
use std::alloc::AllocError;

/// Appends the line of a worker.
fn append_worker(worker: u64, tally: &Tally, into: &mut Vec<u8>) -> Result<(), AllocError>
    ensures ok { OnOk result (into.new.items ≡ into.old.items ++ line_text (tally_words (worker, tally.now))) }
    ensures kept { Keeps into.old.items into.new.items }
{
    let line = [
        Piece::Text(b"worker"),
        Piece::Number(worker),
        Piece::Text(b"turns"),
        Piece::Number(tally.turns),
        Piece::Text(b"fired"),
        Piece::Number(tally.fired),
        Piece::Text(b"voids"),
        Piece::Number(tally.voids),
        Piece::Text(b"stops"),
        Piece::Number(tally.stops),
        Piece::Text(b"dones"),
        Piece::Number(tally.dones),
    ];
    append_pieces(&line, into)
}

/// Appends a line for each worker.
fn append_workers(tallies: &[Tally], into: &mut Vec<u8>) -> Result<(), AllocError>
    ensures ok { OnOk result (into.new.items ≡ into.old.items ++ workers_text 0 tallies.now) }
    ensures kept { Keeps into.old.items into.new.items }
{
    let mut worker = 0;
    let mut rest = tallies;
    while let [tally, after @ ..] = rest {
        append_worker(worker, tally, into)?;
        worker += 1;
        rest = after;
    }
    Ok(())
}

/// Appends a line for each worker, and a last one.
fn append_tallies(
    tallies: &[Tally],
    last: &[Piece<'_>],
    into: &mut Vec<u8>,
) -> Result<(), AllocError>
    ensures ok { OnOk result (into.new.items ≡ into.old.items ++ workers_text 0 tallies.now ++ pieces_text last.now) }
    ensures kept { Keeps into.old.items into.new.items }
{
    append_workers(tallies, into)?;
    append_pieces(last, into)
}

/// Appends what each worker counted, in order, and the sweeps that ended the run with their firings.
///
/// # Errors
/// Want of memory. Then nothing was appended.
#[tactic(auto, unfolding(crate::specs::Runs::tallies_text))]
pub fn print_tallies(
    tallies: &[Tally],
    finish: u64,
    finish_fired: u64,
    into: &mut Vec<u8>,
) -> Result<(), AllocError>
    ensures ok { OnOk result (into.new.items ≡ into.old.items ++ tallies_text tallies.now finish finish_fired) }
    ensures err { OnErr result (into.new.items ≡ into.old.items) }
{
    let last = [
        Piece::Text(b"finish"),
        Piece::Number(finish),
        Piece::Text(b"fired"),
        Piece::Number(finish_fired),
    ];
    cut_back(into.len(), append_tallies(tallies, &last, into), into)
}

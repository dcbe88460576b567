//! How many cycles a run made, and how often each node fired.

ghost use Rattle.std.specs.Prelude.{◌≡◌, ◌≤◌, ◌++◌, length, OnOk, OnErr};
ghost use Rattle.lid_base.specs.Lists.{Keeps};
ghost use Rattle.lid_texts_runs.specs.Runs.{fired_text, cycles_text};

use crate::pieces::{Piece, append_pieces};
use lid_base_lines::cut_back;
use std::alloc::AllocError;

/// Appends a line for each node.
fn append_fired(fired: &[u64], into: &mut Vec<u8>) -> Result<(), AllocError>
    ensures ok { OnOk result (into.new.items ≡ into.old.items ++ fired_text (length fired.now) 0 fired.now) }
    ensures kept { Keeps into.old.items into.new.items }
{
    let count = fired.len() as u64;
    let mut node = 0;
    let mut rest = fired;
    while let [times, after @ ..] = rest {
        let line = [
            Piece::Text(b"fired"),
            Piece::Node { count, node },
            Piece::Number(*times),
        ];
        append_pieces(&line, into)?;
        node += 1;
        rest = after;
    }
    Ok(())
}

/// Appends the lines.
#[tactic(auto, unfolding(crate::specs::Runs::cycles_text))]
fn append_cycles(cycles: u64, fired: &[u64], into: &mut Vec<u8>) -> Result<(), AllocError>
    ensures ok { OnOk result (into.new.items ≡ into.old.items ++ cycles_text cycles fired.now) }
    ensures kept { Keeps into.old.items into.new.items }
{
    append_pieces(&[Piece::Text(b"cycles"), Piece::Number(cycles)], into)?;
    append_fired(fired, into)
}

/// Appends how many cycles a run made, and how often each node fired: the source, the shells and the
/// sink, in order.
///
/// # Errors
/// Want of memory. Then nothing was appended.
pub fn print_cycles(cycles: u64, fired: &[u64], into: &mut Vec<u8>) -> Result<(), AllocError>
    requires { 2 ≤ length fired.now }
    ensures ok { OnOk result (into.new.items ≡ into.old.items ++ cycles_text cycles fired.now) }
    ensures err { OnErr result (into.new.items ≡ into.old.items) }
{
    cut_back(into.len(), append_cycles(cycles, fired, into), into)
}

//! Lines of words of several kinds, appended to a text.

ghost use Rattle.std.specs.Prelude.{◌≡◌, ◌<◌, ◌++◌, OnOk, OnErr};
ghost use Rattle.lid_base.specs.Lists.{Keeps};
ghost use Rattle.lid_texts_runs.specs.Pieces.{hex_digit, hex_digits, spelled, node_name, pieces_text};

use lid_base::append_number;
use lid_base_lines::cut_back;
use std::alloc::AllocError;

/// A word of a line.
#[derive(Clone, Copy)]
pub enum Piece<'a> {
    /// A word as it stands.
    Text(&'a [u8]),
    /// A number, in decimal.
    Number(u64),
    /// The word of a station, in sixteen hexadecimal digits.
    Hex(u64),
    /// The name of a node by its number, where there are `count`: `in`, `u0` and so on, `out`.
    Node { count: u64, node: u64 },
}

/// A hexadecimal digit of a number below 16.
fn hex_digit(n: u64) -> u8
    requires { n < 16 }
    ensures { result ≡ hex_digit n }
{
    if n < 10 {
        b'0' + n as u8
    } else {
        b'a' - 10 + n as u8
    }
}

/// Appends the last hexadecimal digits of a number, so many of them.
fn append_hex(digits: u32, number: u64, into: &mut Vec<u8>) -> Result<(), AllocError>
    ensures ok { OnOk result (into.new.items ≡ into.old.items ++ hex_digits digits number) }
    ensures kept { Keeps into.old.items into.new.items }
{
    if digits == 0 {
        return Ok(());
    }
    append_hex(digits - 1, number / 16, into)?;
    into.push(hex_digit(number % 16))?;
    Ok(())
}

/// Appends the bytes of the name of a node.
fn append_name(count: u64, node: u64, into: &mut Vec<u8>) -> Result<(), AllocError>
    ensures ok { OnOk result (into.new.items ≡ into.old.items ++ node_name count node) }
    ensures kept { Keeps into.old.items into.new.items }
{
    if node == 0 {
        return into.extend_from_slice(b"in");
    }
    if node == count.saturating_sub(1) {
        return into.extend_from_slice(b"out");
    }
    into.push(b'u')?;
    append_number(node - 1, into)
}

/// Appends the name of a node by its number, where there are so many nodes: `in`, `u0` and so on, `out`.
///
/// # Errors
/// Where there is no memory; `into` is then as it was.
pub fn append_node(count: u64, node: u64, into: &mut Vec<u8>) -> Result<(), AllocError>
    ensures ok { OnOk result (into.new.items ≡ into.old.items ++ node_name count node) }
    ensures err { OnErr result (into.new.items ≡ into.old.items) }
    ensures kept { Keeps into.old.items into.new.items }
{
    cut_back(into.len(), append_name(count, node, into), into)
}

/// Appends a word.
pub(crate) fn append_piece(piece: Piece<'_>, into: &mut Vec<u8>) -> Result<(), AllocError>
    ensures ok { OnOk result (into.new.items ≡ into.old.items ++ spelled piece.entry) }
    ensures kept { Keeps into.old.items into.new.items }
{
    match piece {
        Piece::Text(text) => into.extend_from_slice(text),
        Piece::Number(number) => append_number(number, into),
        Piece::Hex(word) => append_hex(16, word, into),
        Piece::Node { count, node } => append_node(count, node, into),
    }
}

/// Appends a line of words.
#[tactic(auto, unfolding(lid_base_lines::specs::Texts::line_text))]
pub(crate) fn append_pieces(pieces: &[Piece<'_>], into: &mut Vec<u8>) -> Result<(), AllocError>
    ensures ok { OnOk result (into.new.items ≡ into.old.items ++ pieces_text pieces.now) }
    ensures kept { Keeps into.old.items into.new.items }
{
    let mut rest = pieces;
    while let [piece, after @ ..] = rest {
        append_piece(*piece, into)?;
        if !after.is_empty() {
            into.push(b' ')?;
        }
        rest = after;
    }
    into.push(b'\n')?;
    Ok(())
}

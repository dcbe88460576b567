//! What an actor answered to a step.

ghost use Rattle.std.specs.Prelude.{◌≡◌, ◌++◌, ◌∷◌, [], codes, OnOk, OnErr};
ghost use Rattle.std.specs.Fmt.{decimal};
ghost use Rattle.lid_base.specs.Lists.{Keeps};
ghost use Rattle.lid_base_lines.specs.Texts.{line_text};
ghost use Rattle.lid_texts_runs.specs.Pieces.{spelled, hex_digits};
ghost use Rattle.lid_texts_runs.specs.Runs.{fired_word, answer_text};

use crate::pieces::{Piece, append_pieces};
use lid_base::Answer;
use lid_base_lines::cut_back;
use std::alloc::AllocError;

/// Appends the line of a token that was moved.
fn append_moved(
    actor: u32,
    name: &[u8],
    station: u32,
    token: u32,
    fired: bool,
    into: &mut Vec<u8>,
) -> Result<(), AllocError>
    ensures ok { OnOk result (into.new.items ≡ into.old.items ++ line_text (decimal actor ∷ name.now ∷ decimal station ∷ decimal token ∷ fired_word fired)) }
    ensures kept { Keeps into.old.items into.new.items }
{
    let line = [
        Piece::Number(u64::from(actor)),
        Piece::Text(name),
        Piece::Number(u64::from(station)),
        Piece::Number(u64::from(token)),
        Piece::Text(b"fired"),
    ];
    if fired {
        append_pieces(&line, into)
    } else {
        append_pieces(&line[..4], into)
    }
}

/// Appends the line of a look.
fn append_look<'w>(
    actor: u32,
    name: &'w [u8],
    station: u32,
    told: Piece<'w>,
    into: &mut Vec<u8>,
) -> Result<(), AllocError>
    ensures ok { OnOk result (into.new.items ≡ into.old.items ++ line_text (decimal actor ∷ name.now ∷ decimal station ∷ spelled told.entry ∷ [])) }
    ensures kept { Keeps into.old.items into.new.items }
{
    let line = [
        Piece::Number(u64::from(actor)),
        Piece::Text(name),
        Piece::Number(u64::from(station)),
        told,
    ];
    append_pieces(&line, into)
}

/// Appends the line of a look that tells the word of a station.
fn append_hex_look(
    actor: u32,
    name: &[u8],
    station: u32,
    word: u64,
    into: &mut Vec<u8>,
) -> Result<(), AllocError>
    ensures ok { OnOk result (into.new.items ≡ into.old.items ++ line_text (decimal actor ∷ name.now ∷ decimal station ∷ hex_digits 16 word ∷ [])) }
    ensures kept { Keeps into.old.items into.new.items }
{
    append_look(actor, name, station, Piece::Hex(word), into)
}

/// Appends the line of an answer.
#[tactic(auto, unfolding(crate::specs::Runs::answer_text))]
fn append_answer(actor: u32, answer: &Answer, into: &mut Vec<u8>) -> Result<(), AllocError>
    ensures ok { OnOk result (into.new.items ≡ into.old.items ++ answer_text actor answer.now) }
    ensures kept { Keeps into.old.items into.new.items }
{
    let number = Piece::Number(u64::from(actor));
    match *answer {
        Answer::Token { station, token } => {
            append_look(
                actor,
                b"token",
                station,
                Piece::Number(u64::from(token)),
                into,
            )
        }
        Answer::Void { station, word } => append_hex_look(actor, b"void", station, word, into),
        Answer::Room { station } => {
            let line = [
                number,
                Piece::Text(b"room"),
                Piece::Number(u64::from(station)),
            ];
            append_pieces(&line, into)
        }
        Answer::Stop { station, word } => append_hex_look(actor, b"stop", station, word, into),
        Answer::Took {
            station,
            token,
            fired,
        } => append_moved(actor, b"take", station, token, fired, into),
        Answer::Put {
            station,
            token,
            fired,
        } => append_moved(actor, b"put", station, token, fired, into),
        Answer::Fired => append_pieces(&[number, Piece::Text(b"fired")], into),
        Answer::Done => append_pieces(&[number, Piece::Text(b"done")], into),
    }
}

/// Appends what an actor answered to a step.
///
/// # Errors
/// Want of memory. Then nothing was appended.
pub fn print_answer(actor: u32, answer: &Answer, into: &mut Vec<u8>) -> Result<(), AllocError>
    ensures ok { OnOk result (into.new.items ≡ into.old.items ++ answer_text actor answer.now) }
    ensures err { OnErr result (into.new.items ≡ into.old.items) }
{
    cut_back(into.len(), append_answer(actor, answer, into), into)
}

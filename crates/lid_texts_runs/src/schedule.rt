//! Schedules as texts: which actor steps next, in order.

ghost use Rattle.std.specs.Prelude.{◌≡◌, ◌⊎◌, ◌+◌, ◌^◌, ◌++◌, ◌∷◌, Ok, Err, Some, None, List, ℕ, [], length, IfOk, IfErr, OnOk};
ghost use Rattle.lid_base.specs.Numbers.{value_below};
ghost use Rattle.lid_texts_runs.specs.Schedules.{words_on_line, numbered_words, word_fault, told, actors_reading, schedule_reading};

use lid_base::{Items, Line, Which, number};
use lid_base_lines::{LinesFault, limited_lines};
use std::alloc::Global;

/// The most words.
const MOST_WORDS: usize = 1_000_000;

/// Why a text is no schedule. Lines are counted from 1; a logical line has the number of its first
/// physical line.
#[derive(Clone, Copy)]
pub enum SchedFault {
    /// The line has a word that is no number word, a byte against the rules of lines, or a word of
    /// more than 1,024 bytes.
    Word { line: u32 },
    /// The line has a number that is no actor's.
    NoActor { line: u32 },
    /// The number of what is counted, which is over the limit.
    Limit { which: Which, count: u64 },
    /// There was no memory.
    Memory,
}

/// Appends the actor that a word on a line names.
fn push_actor(
    line: u32,
    word: &[u8],
    actors: u32,
    schedule: &mut Vec<u32>,
) -> Result<(), SchedFault>
    ensures ok { OnOk result (word_fault actors (length schedule.old.items + 1, (line, word.now)) ≡ None) }
    ensures pushed { OnOk result (schedule.new.items ≡ schedule.old.items ++ value_below (2 ^ 64) word.now ∷ []) }
    ensures err { IfErr result (λ e. (e ≡ SchedFault.Memory) ⊎ (word_fault actors (length schedule.old.items + 1, (line, word.now)) ≡ Some e)) }
{
    let count = schedule.len();
    if count >= MOST_WORDS {
        return Err(SchedFault::Limit {
            which: Which::Words,
            count: count as u64 + 1,
        });
    }
    let Some(actor) = number(word) else {
        return Err(SchedFault::Word { line });
    };
    if actor >= u64::from(actors) {
        return Err(SchedFault::NoActor { line });
    }
    match schedule.push(actor as u32) {
        Ok(()) => Ok(()),
        Err(_) => Err(SchedFault::Memory),
    }
}

/// Appends the actors that the words of a line name.
fn push_line(line: &Line, actors: u32, schedule: &mut Vec<u32>) -> Result<(), SchedFault>
    ensures ok { OnOk result ((later : List (ℕ × List ℕ))
        → actors_reading actors schedule.new.items later ≡ actors_reading actors schedule.old.items (words_on_line line.now.number line.now.words ++ later)) }
    ensures err { IfErr result (λ e. (e ≡ SchedFault.Memory)
        ⊎ ((later : List (ℕ × List ℕ)) → actors_reading actors schedule.old.items (words_on_line line.now.number line.now.words ++ later) ≡ Err e)) }
{
    for word in line.words.as_slice() {
        if let Err(fault) = push_actor(line.number, word.as_slice(), actors, schedule) {
            return Err(fault);
        }
    }
    Ok(())
}

/// Appends the actors that the words of lines name.
fn push_lines(lines: &[Line], actors: u32, schedule: &mut Vec<u32>) -> Result<(), SchedFault>
    ensures ok { OnOk result (actors_reading actors schedule.old.items (numbered_words lines.now) ≡ Ok schedule.new.items) }
    ensures err { IfErr result (λ e. (e ≡ SchedFault.Memory) ⊎ (actors_reading actors schedule.old.items (numbered_words lines.now) ≡ Err e)) }
{
    for line in lines {
        if let Err(fault) = push_line(line, actors, schedule) {
            return Err(fault);
        }
    }
    Ok(())
}

/// The schedule of some lines.
fn schedule_of(alloc: Global, lines: &[Line], actors: u32) -> Result<Items<u32>, SchedFault>
    ensures ok { IfOk result (λ schedule. actors_reading actors [] (numbered_words lines.now) ≡ Ok schedule) }
    ensures err { IfErr result (λ e. (e ≡ SchedFault.Memory) ⊎ (actors_reading actors [] (numbered_words lines.now) ≡ Err e)) }
{
    let mut schedule = Vec::new(alloc);
    match push_lines(lines, actors, &mut schedule) {
        Ok(()) => Ok(Items::from_vec(schedule)),
        Err(fault) => Err(fault),
    }
}

/// How a fault of the lines is told.
fn told(fault: LinesFault) -> SchedFault
    ensures { result ≡ told fault }
{
    match fault {
        LinesFault::TooLong { bytes } => SchedFault::Limit {
            which: Which::FileBytes,
            count: bytes,
        },
        LinesFault::Word { line } => SchedFault::Word { line },
        LinesFault::Memory => SchedFault::Memory,
    }
}

/// Reads a schedule for so many actors: number words, any number in a line, each of which is an actor.
///
/// # Errors
/// `Limit` of `FileBytes`, with the length of the text, comes first of all, where there are more than
/// 16,777,216 bytes. Then `Word` tells the first line with a bad byte or a word of more than 1,024
/// bytes. Then the first word that is at fault is told: the word number 1,000,001 by `Limit` of
/// `Words`, one that is no number word by `Word`, and a number that is no actor's by `NoActor`.
/// `Memory` may come at any text.
#[tactic(auto, unfolding(crate::specs::Schedules::schedule_reading))]
pub fn read_schedule(alloc: Global, bytes: &[u8], actors: u32) -> Result<Items<u32>, SchedFault>
    ensures ok { IfOk result (λ schedule. schedule_reading actors bytes.now ≡ Ok schedule) }
    ensures err { IfErr result (λ e. (e ≡ SchedFault.Memory) ⊎ (schedule_reading actors bytes.now ≡ Err e)) }
{
    match limited_lines(alloc, bytes) {
        Ok(lines) => schedule_of(alloc, lines.as_slice(), actors),
        Err(fault) => Err(told(fault)),
    }
}

//! Stalls as a text.

ghost use Rattle.std.specs.Prelude.{◌≡◌, ◌⊎◌, ◌++◌, ◌∷◌, Ok, Err, Some, None, [], IfOk, IfErr, OnOk, OnErr};
ghost use Rattle.lid_stall_text.specs.Stalls.{is_header, stall_by, stall_of, is_after, line_fault, with_stall, lines_reading, all_reading, told, stalls_reading};
ghost use Rattle.lid_stall_text.specs.Holds.{Ascend};

use lid_base::{Items, Line, Name, Which, is_same, number, word_at};
use lid_base_lines::{LinesFault, limited_lines};
use std::alloc::Global;

/// Who is held in a cycle, counted from 0.
#[derive(Clone, Copy, PartialEq, Eq)]
pub struct Stall {
    pub cycle: u64,
    pub source: bool,
    pub sink: bool,
}

/// Why a text does not stand for stalls. Lines are counted from 1; a logical line has the number of its
/// first physical line.
#[derive(Clone, Copy)]
pub enum StallFault {
    /// The number of what is counted, which is over the limit.
    Limit { which: Which, count: u64 },
    /// The line is not as the form says, or has a byte against the rules of lines or a word of more than
    /// 1,024 bytes. A text without logical lines is told by line 0.
    Word { line: u32 },
    /// The cycle on this line is not greater than that on the line before.
    Order { line: u32 },
    /// There was no memory.
    Memory,
}

/// Whether this is the first line.
fn is_header(words: &[Name]) -> bool
    ensures { result ≡ is_header words.now }
{
    words.len() == 2
        && is_same(word_at(words, 0), b"lid-stalls")
        && is_same(word_at(words, 1), b"1")
}

/// The stall of a cycle, by the word that says who is held.
fn stall_by(who: &[u8], cycle: u64) -> Option<Stall>
    ensures { result ≡ stall_by who.now cycle }
{
    if is_same(who, b"in") {
        return Some(Stall {
            cycle,
            source: true,
            sink: false,
        });
    }
    if is_same(who, b"out") {
        return Some(Stall {
            cycle,
            source: false,
            sink: true,
        });
    }
    if is_same(who, b"both") {
        return Some(Stall {
            cycle,
            source: true,
            sink: true,
        });
    }
    None
}

/// The stall of a line.
fn stall_of(words: &[Name]) -> Option<Stall>
    ensures { result ≡ stall_of words.now }
{
    if words.len() != 2 {
        return None;
    }
    match number(word_at(words, 0)) {
        Some(cycle) => stall_by(word_at(words, 1), cycle),
        None => None,
    }
}

/// Whether a cycle comes after the last of some stalls.
fn is_after(stalls: &[Stall], cycle: u64) -> bool
    ensures { result ≡ is_after stalls.now cycle }
{
    match stalls {
        [.., last] => last.cycle < cycle,
        [] => true,
    }
}

/// Appends the stall of a line.
fn push_line(line: u32, words: &[Name], stalls: &mut Vec<Stall>) -> Result<(), StallFault>
    ensures ok { OnOk result (line_fault stalls.old.items line (stall_of words.now) ≡ None) }
    ensures pushed { OnOk result (stalls.new.items ≡ with_stall stalls.old.items (stall_of words.now)) }
    ensures err { IfErr result (λ e. (e ≡ StallFault.Memory) ⊎ (line_fault stalls.old.items line (stall_of words.now) ≡ Some e)) }
{
    let Some(stall) = stall_of(words) else {
        return Err(StallFault::Word { line });
    };
    if !is_after(stalls.as_slice(), stall.cycle) {
        return Err(StallFault::Order { line });
    }
    match stalls.push(stall) {
        Ok(()) => Ok(()),
        Err(_) => Err(StallFault::Memory),
    }
}

/// Appends the stalls of lines.
fn push_lines(lines: &[Line], stalls: &mut Vec<Stall>) -> Result<(), StallFault>
    ensures ok { OnOk result (lines_reading stalls.old.items lines.now ≡ Ok stalls.new.items) }
    ensures err { IfErr result (λ e. (e ≡ StallFault.Memory) ⊎ (lines_reading stalls.old.items lines.now ≡ Err e)) }
{
    for line in lines {
        if let Err(fault) = push_line(line.number, line.words.as_slice(), stalls) {
            return Err(fault);
        }
    }
    Ok(())
}

/// The stalls of the lines after the first.
fn stalls_of(alloc: Global, lines: &[Line]) -> Result<Items<Stall>, StallFault>
    ensures ok { IfOk result (λ stalls. lines_reading [] lines.now ≡ Ok stalls) }
    ensures ascend { IfOk result Ascend }
    ensures err { IfErr result (λ e. (e ≡ StallFault.Memory) ⊎ (lines_reading [] lines.now ≡ Err e)) }
{
    let mut stalls = Vec::new(alloc);
    match push_lines(lines, &mut stalls) {
        Ok(()) => Ok(Items::from_vec(stalls)),
        Err(fault) => Err(fault),
    }
}

/// The stalls of all lines.
fn all_stalls(alloc: Global, lines: &[Line]) -> Result<Items<Stall>, StallFault>
    ensures ok { IfOk result (λ stalls. all_reading lines.now ≡ Ok stalls) }
    ensures ascend { IfOk result Ascend }
    ensures err { IfErr result (λ e. (e ≡ StallFault.Memory) ⊎ (all_reading lines.now ≡ Err e)) }
{
    match lines {
        [] => Err(StallFault::Word { line: 0 }),
        [header, after @ ..] => {
            if is_header(header.words.as_slice()) {
                stalls_of(alloc, after)
            } else {
                Err(StallFault::Word {
                    line: header.number,
                })
            }
        }
    }
}

/// How a fault of the lines is told.
fn told(fault: LinesFault) -> StallFault
    ensures { result ≡ told fault }
{
    match fault {
        LinesFault::TooLong { bytes } => StallFault::Limit {
            which: Which::FileBytes,
            count: bytes,
        },
        LinesFault::Word { line } => StallFault::Word { line },
        LinesFault::Memory => StallFault::Memory,
    }
}

/// Reads a text of stalls: the line `lid-stalls 1`, and then lines of a cycle and one of `in`, `out` and
/// `both`, with cycles that ascend.
///
/// # Errors
/// `Limit` of `FileBytes`, with the length of the text, comes first of all, where there are more than
/// 16,777,216 bytes. Then `Word` tells the first line with a bad byte or a word of more than 1,024
/// bytes. Then the first line that is at fault is told: by `Word` where it has not the form that is
/// due, by `Order` where its cycle is not greater than that on the line before. `Memory` may come at
/// any text.
#[tactic(auto, unfolding(crate::specs::Stalls::stalls_reading))]
pub fn read_stalls(alloc: Global, bytes: &[u8]) -> Result<Items<Stall>, StallFault>
    ensures ok { IfOk result (λ stalls. stalls_reading bytes.now ≡ Ok stalls) }
    ensures ascend { IfOk result Ascend }
    ensures err { IfErr result (λ e. (e ≡ StallFault.Memory) ⊎ (stalls_reading bytes.now ≡ Err e)) }
{
    match limited_lines(alloc, bytes) {
        Ok(lines) => all_stalls(alloc, lines.as_slice()),
        Err(fault) => Err(told(fault)),
    }
}

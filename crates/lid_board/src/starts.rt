//! How a board starts.

ghost use Rattle.std.specs.Prelude.{◌≡◌, ℕ, ◌+◌, ◌*◌, ◌^◌, ◌<◌, ◌≤◌, List, length, Some, slice_index_or, IfSome, IfOk, OnOk, []};
ghost use Rattle.std.specs.List.{All};
ghost use Rattle.lid_station.specs.Boards.{fill, drain};
ghost use Rattle.lid_board.specs.Owners.{IsOf, ends_of, steps_of, start_ends};
ghost use Rattle.lid_board.specs.Relation.{word_count};
ghost use Rattle.lid_board.specs.Standing.{AreStreamsOf};
ghost use Rattle.lid_board.specs.Starts.{first_ends, start_fill, start_drain, start_word, AreStreamsFor, AreLaid, AreFirsts, AreNumbers, CanStart, HasLaidWords};
ghost use Rattle.lid_board.specs.Views.{at};

use crate::board::Board;
use crate::course::Course;
use crate::halves::FULL;
use crate::hand::Hand;
use crate::key::key_of;
use atomic_table::Table;
use std::alloc::{AllocError, Global};

/// The words of a board, and the number of each station's first word.
#[derive(Drop)]
struct Laid {
    words: Vec<u64>,
    starts: Vec<usize>,
}

/// The first word of a station at its start.
fn word_of(first: Option<u32>) -> u64
    requires { IfSome first (λ token. token < 2 ^ 31) }
    ensures { result ≡ start_word first }
{
    match first {
        Some(token) => FULL + u64::from(token),
        None => 0,
    }
}

/// Adds the words of a station.
fn lay_station(words: &mut Vec<u64>, word: u64, cap: u32) -> Result<(), AllocError>
    requires two { 2 ≤ cap }
    requires few { cap ≤ 16 }
    ensures { OnOk result (HasLaidWords words.old.items word (word_count cap) words.new.items) }
{
    words.push(word)?;
    for _number in 1..(cap + 1) / 2 {
        words.push(0)?;
    }
    Ok(())
}

fn lay(alloc: Global, firsts: &[Option<u32>], caps: &[u32]) -> Result<Laid, AllocError>
    requires { CanStart firsts.now caps.now }
    ensures words { IfOk result (λ laid. AreLaid firsts.now caps.now laid.words.items (length firsts.now)) }
    ensures starts { IfOk result (λ laid. AreFirsts caps.now laid.starts.items (length firsts.now)) }
{
    let mut words = Vec::new(alloc);
    words.push(0)?;
    let mut starts = Vec::new(alloc);
    for (station, first) in firsts.iter().enumerate() {
        starts.push(words.len())?;
        lay_station(&mut words, word_of(*first), caps[station])?;
    }
    Ok(Laid { words, starts })
}

/// How many tokens passed each end at the start.
fn first_numbers(alloc: Global, firsts: &[Option<u32>]) -> Result<Vec<Option<u64>>, AllocError>
    ensures { IfOk result (λ numbers. AreNumbers firsts.now numbers.items (length firsts.now)) }
{
    let mut numbers = Vec::new(alloc);
    for (_station, first) in firsts.iter().enumerate() {
        numbers.push(Some(u64::from(first.is_some())))?;
        numbers.push(Some(0))?;
    }
    Ok(numbers)
}

/// The lists that a board and its hand start with: the words, the number of each station's first
/// word, the capacities, and how many tokens passed each end.
#[derive(Drop)]
struct Ground {
    words: Vec<u64>,
    starts: Vec<usize>,
    caps: Vec<u32>,
    ends: Vec<Option<u64>>,
}

fn lay_ground(alloc: Global, firsts: &[Option<u32>], caps: &[u32]) -> Result<Ground, AllocError>
    requires { CanStart firsts.now caps.now }
    ensures words { IfOk result (λ ground. AreLaid firsts.now caps.now ground.words.items (length firsts.now)) }
    ensures starts { IfOk result (λ ground. AreFirsts caps.now ground.starts.items (length firsts.now)) }
    ensures caps { IfOk result (λ ground. ground.caps.items ≡ caps.now) }
    ensures ends { IfOk result (λ ground. AreNumbers firsts.now ground.ends.items (length firsts.now)) }
{
    let ends = first_numbers(alloc, firsts)?;
    let kept = Vec::from_slice(alloc, caps)?;
    let Laid { words, starts } = lay(alloc, firsts, caps)?;
    Ok(Ground {
        words,
        starts,
        caps: kept,
        ends,
    })
}

impl Board {
    /// Starts a board with one station for each entry, with its start token, if any, and its
    /// capacity. The board carries the streams of the course, one for each station. The hand owns
    /// all ends.
    ///
    /// There are as many capacities as start tokens, fewer than 2^32, and the course has a stream of
    /// fewer than 2^64 tokens for each. Tokens are below 2^31, capacities lie in 2 to 16, and a start
    /// token is the first of its stream. The start count of a station is 1 where it starts with a token, else 0.
    ///
    /// # Errors
    /// Memory is wanting.
    pub fn start<C: Course>(
        alloc: Global,
        firsts: &[Option<u32>],
        caps: &[u32],
        course: &C,
    ) -> Result<(Board, Hand), AllocError>
        requires many { length firsts.now < 2 ^ 32 }
        requires same { length caps.now ≡ length firsts.now }
        requires two { All (λ cap. 2 ≤ cap) caps.now }
        requires few { All (λ cap. cap ≤ 16) caps.now }
        requires small { All (λ first. IfSome first (λ token. token < 2 ^ 31)) firsts.now }
        requires course { AreStreamsFor firsts.now (C.streams course.now) }
        ensures of { IfOk result (λ r. IsOf r.1 r.0) }
        ensures plan { IfOk result (λ r. start_ends r.0 ≡ first_ends firsts.now caps.now (C.streams course.now)) }
        ensures many { IfOk result (λ r. length (start_ends r.0) ≡ 2 * length firsts.now) }
        ensures all { IfOk result (λ r. ends_of r.1 ≡ start_ends r.0) }
        ensures steps { IfOk result (λ r. steps_of r.1 ≡ []) }
        ensures fills { IfOk result (λ r. (station : ℕ) → station < length firsts.now
            → at (ends_of r.1) (fill station) ≡ Some (start_fill firsts.now caps.now (C.streams course.now) station)) }
        ensures drains { IfOk result (λ r. (station : ℕ) → station < length firsts.now
            → at (ends_of r.1) (drain station) ≡ Some (start_drain firsts.now caps.now (C.streams course.now) station)) }
        ensures stands { IfOk result (λ r. AreStreamsOf (start_ends r.0) (λ station. slice_index_or (C.streams course.now) station [])) }
    {
        let key = key_of(alloc, firsts, caps, course)?;
        let ground = lay_ground(alloc, firsts, caps)?;
        let (table, seat) = Table::of_words(alloc, ground.words.as_slice(), &key)?;
        let Ground {
            words: _words,
            starts,
            caps,
            ends,
        } = ground;
        let board = Board {
            table,
            caps,
            firsts: starts,
            alloc,
        };
        Ok((board, Hand { seat, ends }))
    }
}

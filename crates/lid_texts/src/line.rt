//! The logical lines of a rows text: what is at fault in one, and the bits of one.

ghost use Rattle.std.specs.Prelude.{◌≡◌, ◌==◌, ◌<◌, ◌^◌, nat_eq, ◌≤◌, None, length, map, IfOk, OnOk, ◌++◌, ◌∷◌, []};
ghost use Rattle.std.specs.List.{concat, list_any};
ghost use Rattle.std.specs.Cmp.Lexicographic.{pointwise};
ghost use Rattle.lid_texts.specs.Rows.{has_words, is_any, is_header, has_long_word, is_row_char, is_stray_word, row_width, header_fault, row_fault, row_bits};
ghost use Rattle.lid_texts.specs.RowsWalk.{line_fault, joined_lines, alone, no_line, IsKeptFault};

use crate::rows::VecFault;
use lid_base::{Items, Name, Which, has_bad_byte, push_words};
use std::alloc::{AllocError, Global};
use std::marker::Model;

/// The most rows that are read.
const MOST_ROWS: u32 = 1_000_000;

/// The most output bits: rows times output columns.
const MOST_OUT_BITS: u64 = 67_108_864;

/// The most bytes of a word.
const MOST_WORD_BYTES: usize = 1_048_576;

/// A logical line that may still go on: the number of its first physical line, or 0 where there
/// is none yet, its words so far, and whether it has a bad byte.
#[derive(Drop)]
pub(crate) struct BegunLine {
    pub(crate) number: u64,
    pub(crate) words: Vec<Name>,
    pub(crate) bad: bool,
}

impl Model for BegunLine {
    ghost use Rattle.lid_texts.specs.Rows.{RowsLine};

    ghost Value = { RowsLine };

    ghost view = { λ s. record { number = s.number; words = s.words.items; bad = s.bad } };
}

impl BegunLine {
    /// No line yet.
    pub(crate) fn new(alloc: Global) -> BegunLine
        ensures { result ≡ no_line }
    {
        BegunLine {
            number: 0,
            words: Vec::new(alloc),
            bad: false,
        }
    }

    /// Whether it has a word; else it is no logical line.
    pub(crate) fn has_words(&self) -> bool
        ensures { result ≡ has_words self.now }
    {
        let words = self.words.as_slice();
        words.len() > 0
    }

    /// Adds a physical line.
    pub(crate) fn add(&mut self, alloc: Global, number: u64, line: &[u8]) -> Result<(), AllocError>
        ensures { OnOk result (self.new ≡ joined_lines self.old (alone number line.now)) }
    {
        push_words(alloc, line, &mut self.words)?;
        if self.number == 0 {
            self.number = number;
        }
        self.bad = self.bad || has_bad_byte(line);
        Ok(())
    }
}

/// Whether there are columns.
pub(crate) fn has_columns(columns: &[Name]) -> bool
    ensures { result ≡ is_any columns.now }
{
    match columns {
        [] => false,
        _ => true,
    }
}

/// Whether two lists of names are the same.
fn same_names(some: &[Name], others: &[Name]) -> bool
    ensures { result ≡ pointwise (pointwise nat_eq) some.now others.now }
{
    let mut some_left = some;
    let mut others_left = others;
    while let [name, some_after @ ..] = some_left {
        let [other, others_after @ ..] = others_left else {
            return false;
        };
        if name.as_slice() != other.as_slice() {
            return false;
        }
        some_left = some_after;
        others_left = others_after;
    }
    others_left.is_empty()
}

/// Whether the words are the header of these columns.
fn is_header(columns: &[Name], words: &[Name]) -> bool
    ensures { result ≡ is_header columns.now words.now }
{
    if has_columns(columns) {
        return same_names(words, columns);
    }
    match words {
        [word] => word.as_slice() == b"-".as_slice(),
        _ => false,
    }
}

/// Whether a word has too many bytes.
fn has_long_word(words: &[Name]) -> bool
    ensures { result ≡ has_long_word words.now }
{
    words.iter().any(|word| word.len() > MOST_WORD_BYTES)
}

/// Whether the words together have this many characters.
fn has_width(words: &[Name], width: usize) -> bool
    ensures { result ≡ (length (concat words.now) == width) }
{
    let mut rest = words;
    let mut left = width;
    while let [word, after @ ..] = rest {
        if word.len() > left {
            return false;
        }
        left -= word.len();
        rest = after;
    }
    left == 0
}

/// How many characters a row has.
fn row_width(columns: &[Name]) -> usize
    ensures { result ≡ row_width columns.now }
{
    if has_columns(columns) {
        columns.len()
    } else {
        1
    }
}

/// Whether a character may stand in a row.
fn is_row_char(columns: &[Name], b: u8) -> bool
    ensures { result ≡ is_row_char columns.now b }
{
    if has_columns(columns) {
        b == b'0' || b == b'1'
    } else {
        b == b'-'
    }
}

/// Whether a word has a character that may not stand in a row.
fn is_stray_word(columns: &[Name], word: &[u8]) -> bool
    ensures { result ≡ is_stray_word columns.now word.now }
{
    word.iter().any(|b| !is_row_char(columns, *b))
}

/// Whether the words have a character that may not stand in a row.
fn has_stray_char(columns: &[Name], words: &[Name]) -> bool
    ensures { result ≡ list_any (is_stray_word columns.now) words.now }
{
    words
        .iter()
        .any(|word| is_stray_word(columns, word.as_slice()))
}

/// The number of a line, as it is told. A text with so many lines that this is another one is too
/// long, and its lines are not told.
fn told_number(number: u64) -> u32
    ensures { number < 2 ^ 32 → result ≡ number }
{
    if number > u64::from(u32::MAX) {
        u32::MAX
    } else {
        number as u32
    }
}

/// What is at fault in the header.
#[tactic(auto, unfolding(crate::specs::Rows::header_fault))]
fn header_fault(columns: &[Name], line: &BegunLine) -> Option<VecFault>
    ensures { IsKeptFault line.now.number result (header_fault columns.now line.now) }
{
    let words = line.words.as_slice();
    if line.bad {
        return Some(VecFault::Char {
            line: told_number(line.number),
        });
    }
    if has_long_word(words) || !is_header(columns, words) {
        return Some(VecFault::Header);
    }
    None
}

/// What is at fault in a row, the k-th, counted from 1.
#[tactic(auto, unfolding(crate::specs::Rows::row_fault))]
fn row_fault(columns: &[Name], outs: u32, k: u32, line: &BegunLine) -> Option<VecFault>
    ensures kept { IsKeptFault line.now.number result (row_fault columns.now outs k line.now) }
    ensures few { result ≡ None → k ≤ 1000000 }
{
    let words = line.words.as_slice();
    let out_bits = u64::from(k) * u64::from(outs);
    if line.bad {
        return Some(VecFault::Char {
            line: told_number(line.number),
        });
    }
    if k > MOST_ROWS {
        return Some(VecFault::Limit {
            which: Which::Rows,
            count: u64::from(k),
        });
    }
    if out_bits > MOST_OUT_BITS {
        return Some(VecFault::Limit {
            which: Which::OutBits,
            count: out_bits,
        });
    }
    if has_long_word(words) || !has_width(words, row_width(columns)) {
        return Some(VecFault::Width {
            line: told_number(line.number),
        });
    }
    if has_stray_char(columns, words) {
        return Some(VecFault::Char {
            line: told_number(line.number),
        });
    }
    None
}

/// What is at fault in a logical line, where it comes after `judged` others.
pub(crate) fn line_fault(
    columns: &[Name],
    outs: u32,
    judged: u32,
    line: &BegunLine,
) -> Option<VecFault>
    ensures kept { IsKeptFault line.now.number result (line_fault columns.now outs judged line.now) }
    ensures few { result ≡ None → judged ≤ 1000000 }
{
    if judged == 0 {
        header_fault(columns, line)
    } else {
        row_fault(columns, outs, judged, line)
    }
}

/// Appends the bits of a word.
fn append_word_bits(word: &[u8], into: &mut Vec<bool>) -> Result<(), AllocError>
    ensures { OnOk result (into.new.items ≡ into.old.items ++ map (λ b. b == 49) word.now) }
{
    for b in word {
        into.push(*b == b'1')?;
    }
    Ok(())
}

/// The bits of a row.
#[tactic(auto, unfolding(crate::specs::Rows::row_bits))]
pub(crate) fn row_bits(
    alloc: Global,
    columns: &[Name],
    line: &BegunLine,
) -> Result<Items<bool>, AllocError>
    ensures { IfOk result (λ bits. bits ≡ row_bits columns.now line.now) }
{
    if !has_columns(columns) {
        return Ok(Items::from_vec(Vec::new(alloc)));
    }
    let mut bits = Vec::with_capacity(alloc, columns.len())?;
    let mut rest = line.words.as_slice();
    while let [word, after @ ..] = rest {
        append_word_bits(word.as_slice(), &mut bits)?;
        rest = after;
    }
    Ok(Items::from_vec(bits))
}

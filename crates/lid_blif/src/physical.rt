//! A physical line, gone over once: its words, and what is at fault in it.

ghost use Rattle.std.specs.Prelude.{◌≡◌, ◌+◌, ◌<◌, ◌≤◌, ◌⊎◌, ◌∷◌, [], ◌++◌, length, take, drop, IfOk, OnOk, IfErr, IfSome, MatchOption, Some, None};
ghost use Rattle.lid_base.specs.Lines.{content_of, goes_on, words_in, words_of, line_fault};
ghost use Rattle.lid_blif.specs.Joins.{has_marked_word, has_longer_word};
ghost use Rattle.lid_blif.specs.Places.{bytes_between, bytes_of_words};

use crate::line::Word;
use lid_base::{
    TextFault, content_of, ends_in_mark, find_separator, find_word, has_stray_byte, trimmed,
};
use std::alloc::AllocError;

/// The parts of a physical line.
#[derive(Clone, Copy)]
struct LineParts<'t> {
    /// The line without its comment.
    content: &'t [u8],
    /// How far the words go: up to separators at the end of the content, or a `\` that ends it.
    end: usize,
    /// The next physical line belongs to the same logical line.
    goes_on: bool,
}

#[tactic(auto, unfolding(lid_base::specs::Lines::words_of, lid_base::specs::Lines::goes_on))]
fn line_parts(line: &[u8]) -> LineParts<'_>
    ensures content { result.content.now ≡ content_of line.now }
    ensures words { words_in (take result.end line.now) ≡ words_of line.now }
    ensures end { result.end ≤ length line.now }
    ensures goes_on { result.goes_on ≡ goes_on line.now }
{
    let content = content_of(line);
    let kept = trimmed(content);
    let goes_on = ends_in_mark(kept);
    let end = if goes_on { kept.len() - 1 } else { kept.len() };
    LineParts {
        content,
        end,
        goes_on,
    }
}

/// Where a word begins, where it has ended, and where the bytes after it and its separator begin.
#[derive(Clone, Copy)]
struct WordBounds {
    start: usize,
    end: usize,
    next: usize,
}

/// The bounds of the first word. `None` is no word.
fn first_word(bytes: &[u8]) -> Option<WordBounds>
    ensures words { MatchOption result (words_in bytes.now ≡ []) (λ word. words_in bytes.now ≡ bytes_between bytes.now word.start word.end ∷ words_in (drop word.next bytes.now)) }
    ensures within { IfSome result (λ word. (word.start ≤ word.end) × (word.end ≤ word.next) × (0 < word.next) × (word.next ≤ length bytes.now)) }
{
    match find_word(bytes) {
        None => None,
        Some(start) => match find_separator(&bytes[start..]) {
            None => Some(WordBounds {
                start,
                end: bytes.len(),
                next: bytes.len(),
            }),
            Some(count) => Some(WordBounds {
                start,
                end: start + count,
                next: start + count + 1,
            }),
        },
    }
}

/// What was seen of some words while they were cut.
#[derive(Clone, Copy)]
struct Seen {
    /// One of them ends in a `\`.
    marked: bool,
    /// One of them is too long.
    long: bool,
}

/// Appends the words that stand in a text from one place up to another.
fn push_words(
    text: &[u8],
    from: usize,
    to: usize,
    longest: u32,
    words: &mut Vec<Word>,
) -> Result<Seen, AllocError>
    requires within { (from ≤ to) × (to ≤ length text.now) }
    requires short { length text.now ≤ 67108864 }
    ensures words { OnOk result (bytes_of_words text.now words.new.items ≡ bytes_of_words text.now words.old.items ++ words_in (bytes_between text.now from to)) }
    ensures marked { IfOk result (λ seen. seen.marked ≡ has_marked_word (words_in (bytes_between text.now from to))) }
    ensures long { IfOk result (λ seen. seen.long ≡ has_longer_word longest (words_in (bytes_between text.now from to))) }
{
    let mut marked = false;
    let mut long = false;
    let mut at = from;
    while let Some(bounds) = first_word(&text[at..to]) {
        let start = at + bounds.start;
        let word = &text[start..at + bounds.end];
        marked |= ends_in_mark(word);
        long |= word.len() > longest as usize;
        words.push(Word {
            start: start as u32,
            len: word.len() as u32,
        })?;
        at += bounds.next;
    }
    Ok(Seen { marked, long })
}

/// Appends the words of the physical line that stands in a text from one place up to another, and
/// tells whether the next one belongs to the same logical line.
///
/// # Errors
/// What is at fault in the line; `Memory` may come at any line.
#[tactic(auto, unfolding(lid_base::specs::Lines::has_bad_byte, lid_base::specs::Lines::has_long_word))]
pub fn take_words(
    number: u32,
    text: &[u8],
    from: usize,
    to: usize,
    longest: u32,
    words: &mut Vec<Word>,
) -> Result<bool, TextFault>
    requires within { (from ≤ to) × (to ≤ length text.now) }
    requires short { length text.now ≤ 67108864 }
    ensures words { OnOk result (bytes_of_words text.now words.new.items ≡ bytes_of_words text.now words.old.items ++ words_of (bytes_between text.now from to)) }
    ensures goes_on { IfOk result (λ more. more ≡ goes_on (bytes_between text.now from to)) }
    ensures ok { OnOk result (line_fault longest (number, bytes_between text.now from to) ≡ None) }
    ensures err { IfErr result (λ e. (e ≡ TextFault.Memory) ⊎ (line_fault longest (number, bytes_between text.now from to) ≡ Some e)) }
{
    let parts = line_parts(&text[from..to]);
    let Ok(seen) = push_words(text, from, from + parts.end, longest, words) else {
        return Err(TextFault::Memory);
    };
    let bad = has_stray_byte(parts.content) || seen.marked;
    if bad {
        Err(TextFault::BadByte { line: number })
    } else if seen.long {
        Err(TextFault::NameTooLong { line: number })
    } else {
        Ok(parts.goes_on)
    }
}

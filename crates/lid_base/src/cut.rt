//! A text cut into its lines, and lines into their words. Nothing here but `push_words` takes memory.

ghost use Rattle.std.specs.Prelude.{◌≡◌, ◌<◌, ◌++◌, ◌∷◌, [], length, not, nat_lt, position, IfSome, MatchOption, OnOk, OnErr};
ghost use Rattle.std.specs.Option.{option_copied};
ghost use Rattle.std.specs.List.{slice_split, list_any};
ghost use Rattle.lid_base.specs.Lines.{
  is_newline,
  is_hash,
  is_separator,
  is_allowed,
  ends_in_mark,
  content_of,
  trimmed,
  without_mark,
  goes_on,
  words_in,
  words_of,
  has_bad_byte,
  has_long_word,
};
ghost use Rattle.lid_base.specs.Cuts.{lines_left};
ghost use Rattle.lid_base.specs.Lists.{ExtendsByPart};

use crate::names::{Name, copy_name};
use std::alloc::{AllocError, Global};

/// Where the first newline stands.
fn find_newline(bytes: &[u8]) -> Option<usize>
    ensures { result ≡ position is_newline bytes.now }
{
    bytes.iter().position(|b| *b == b'\n')
}

/// Where the first `#` stands.
fn find_comment(bytes: &[u8]) -> Option<usize>
    ensures { result ≡ position is_hash bytes.now }
{
    bytes.iter().position(|b| *b == b'#')
}

/// Where the first separator stands.
pub fn find_separator(bytes: &[u8]) -> Option<usize>
    ensures { result ≡ position is_separator bytes.now }
{
    bytes.iter().position(|b| is_separator(*b))
}

/// Where the first byte stands that is no separator.
pub fn find_word(bytes: &[u8]) -> Option<usize>
    ensures { result ≡ position (λ b. not (is_separator b)) bytes.now }
{
    bytes.iter().position(|b| !is_separator(*b))
}

/// The physical line that a text begins with, and the text after its newline, where there is one.
pub fn cut_line(bytes: &[u8]) -> (&[u8], Option<&[u8]>)
    ensures line { slice_split is_newline bytes.now ≡ result.0.now ∷ lines_left (option_copied result.1) }
    ensures shorter { IfSome result.1 (λ rest. length rest.now < length bytes.now) }
{
    match find_newline(bytes) {
        None => (bytes, None),
        Some(end) => (&bytes[..end], Some(&bytes[end + 1..])),
    }
}

/// A physical line without its comment.
pub fn content_of(line: &[u8]) -> &[u8]
    ensures { result.now ≡ content_of line.now }
{
    match find_comment(line) {
        None => line,
        Some(end) => &line[..end],
    }
}

/// Whether a byte separates words: a blank, a tab or a carriage return.
fn is_separator(b: u8) -> bool
    ensures { result ≡ is_separator b }
{
    b == b' ' || b == b'\t' || b == b'\r'
}

/// Whether a byte may stand outside comments, within a line.
fn is_allowed(b: u8) -> bool
    ensures { result ≡ is_allowed b }
{
    32 <= b && b <= 126 || b == b'\t' || b == b'\r'
}

/// Whether the last byte is a `\`.
pub fn ends_in_mark(bytes: &[u8]) -> bool
    ensures { result ≡ ends_in_mark bytes.now }
{
    match bytes {
        [.., last] => *last == b'\\',
        [] => false,
    }
}

/// The bytes without the separators at the end.
pub fn trimmed(bytes: &[u8]) -> &[u8]
    ensures { result.now ≡ trimmed bytes.now }
{
    let mut end = bytes.len();
    while end > 0 && is_separator(bytes[end - 1]) {
        end -= 1;
    }
    &bytes[..end]
}

/// The bytes without a `\` at the end.
fn without_mark(bytes: &[u8]) -> &[u8]
    ensures { result.now ≡ without_mark bytes.now }
{
    if ends_in_mark(bytes) {
        &bytes[..bytes.len() - 1]
    } else {
        bytes
    }
}

/// Whether the next physical line belongs to the same logical line.
pub fn goes_on(line: &[u8]) -> bool
    ensures { result ≡ goes_on line.now }
{
    ends_in_mark(trimmed(content_of(line)))
}

/// The part of a physical line that has its words: without the comment, and without a `\` that
/// ends the line. `next_word` cuts them off one by one.
fn words_part(line: &[u8]) -> &[u8]
    ensures { words_in result.now ≡ words_of line.now }
{
    without_mark(trimmed(content_of(line)))
}

/// The first of the words between separators, and the bytes after it. `None` is no word.
fn next_word(bytes: &[u8]) -> Option<(&[u8], &[u8])>
    ensures words { MatchOption result (words_in bytes.now ≡ []) (λ x. words_in bytes.now ≡ x.0.now ∷ words_in x.1.now) }
    ensures shorter { IfSome result (λ x. length x.1.now < length bytes.now) }
{
    match find_word(bytes) {
        None => None,
        Some(start) => {
            let rest = &bytes[start..];
            match find_separator(rest) {
                None => Some((rest, &[])),
                Some(end) => Some((&rest[..end], &rest[end + 1..])),
            }
        }
    }
}

/// Whether a byte is not allowed outside comments. The loop has no early exit, so that many bytes
/// are compared at once.
pub fn has_stray_byte(bytes: &[u8]) -> bool
    ensures { result ≡ list_any (λ b. not (is_allowed b)) bytes.now }
{
    let mut has_stray = false;
    for b in bytes {
        has_stray |= !is_allowed(*b);
    }
    has_stray
}

/// Whether a word ends in a `\`.
fn has_marked_word(bytes: &[u8]) -> bool
    ensures { result ≡ list_any ends_in_mark (words_in bytes.now) }
{
    let mut rest = bytes;
    while let Some((word, after)) = next_word(rest) {
        if ends_in_mark(word) {
            return true;
        }
        rest = after;
    }
    false
}

/// Whether a physical line has a byte that is not allowed outside comments, or a word that ends in
/// a `\` that does not end the line.
pub fn has_bad_byte(line: &[u8]) -> bool
    ensures { result ≡ has_bad_byte line.now }
{
    has_stray_byte(content_of(line)) || has_marked_word(words_part(line))
}

/// Whether a word has more than `longest` bytes.
fn has_longer_word(bytes: &[u8], longest: u32) -> bool
    ensures { result ≡ list_any (λ w. nat_lt longest (length w)) (words_in bytes.now) }
{
    let mut rest = bytes;
    while let Some((word, after)) = next_word(rest) {
        if word.len() > longest as usize {
            return true;
        }
        rest = after;
    }
    false
}

/// Whether a physical line has a word of more than `longest` bytes.
pub fn has_long_word(line: &[u8], longest: u32) -> bool
    ensures { result ≡ has_long_word longest line.now }
{
    has_longer_word(words_part(line), longest)
}

/// Appends the words of a physical line.
///
/// # Errors
/// Some first words may then be appended.
pub fn push_words(alloc: Global, line: &[u8], words: &mut Vec<Name>) -> Result<(), AllocError>
    ensures ok { OnOk result (words.new.items ≡ words.old.items ++ words_of line.now) }
    ensures err { OnErr result (ExtendsByPart words.old.items words.new.items (words_of line.now)) }
{
    let mut rest = words_part(line);
    while let Some((word, after)) = next_word(rest) {
        words.push(copy_name(alloc, word)?)?;
        rest = after;
    }
    Ok(())
}

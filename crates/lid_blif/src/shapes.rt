//! The forms of rows, latches and bindings.

ghost use Rattle.std.specs.Prelude.{◌≡◌, ◌||◌};
ghost use Rattle.std.specs.List.{list_all, list_any, position, before_first, after_first};
ghost use Rattle.lid_blif.specs.Words.{is_input_character, is_row_of, is_zero, is_one, is_latch_type, is_latch_init, has_type, has_init, is_equals, is_binding};

use crate::line::{Words, last_word, word_at};
use lid_base::is_same;

fn is_input_character(character: u8) -> bool
    ensures { result ≡ is_input_character character }
{
    character == b'0' || character == b'1' || character == b'-'
}

fn are_input_characters(characters: &[u8]) -> bool
    ensures { result ≡ list_all is_input_character characters.now }
{
    for character in characters {
        if !is_input_character(*character) {
            return false;
        }
    }
    true
}

fn is_output(word: &[u8]) -> bool
    ensures { result ≡ (is_zero word.now || is_one word.now) }
{
    is_same(word, b"0") || is_same(word, b"1")
}

/// Whether the words are a row of a cover with so many inputs.
pub fn is_row_of(inputs: usize, words: &Words<'_>) -> bool
    ensures { result ≡ is_row_of inputs words.now }
{
    if !is_output(last_word(words)) {
        false
    } else if inputs == 0 {
        words.len() == 1
    } else {
        let characters = word_at(words, 0);
        words.len() == 2 && characters.len() == inputs && are_input_characters(characters)
    }
}

/// Whether a latch may have this type.
pub fn is_latch_type(word: &[u8]) -> bool
    ensures { result ≡ is_latch_type word.now }
{
    is_same(word, b"re") || is_same(word, b"fe")
}

/// Whether a latch may have this initial value.
pub fn is_latch_init(word: &[u8]) -> bool
    ensures { result ≡ is_latch_init word.now }
{
    is_same(word, b"0") || is_same(word, b"1") || is_same(word, b"2") || is_same(word, b"3")
}

/// Whether the words of a latch have a type and a control.
pub fn has_type(words: &Words<'_>) -> bool
    ensures { result ≡ has_type words.now }
{
    words.len() >= 5
}

/// Whether the words of a latch have an initial value.
pub fn has_init(words: &Words<'_>) -> bool
    ensures { result ≡ has_init words.now }
{
    words.len() == 4 || words.len() == 6
}

fn equals_at(word: &[u8]) -> Option<usize>
    ensures { result ≡ position is_equals word.now }
{
    word.iter().position(|byte| *byte == b'=')
}

/// The formal of a binding: what stands before its first `=`.
pub fn formal(word: &[u8]) -> &[u8]
    ensures { result.now ≡ before_first is_equals word.now }
{
    match equals_at(word) {
        Some(at) => &word[..at],
        None => word,
    }
}

/// The actual of a binding: what stands after its first `=`.
pub fn actual(word: &[u8]) -> &[u8]
    ensures { result.now ≡ after_first is_equals word.now }
{
    match equals_at(word) {
        Some(at) => &word[at + 1..],
        None => &[],
    }
}

fn has_equals(word: &[u8]) -> bool
    ensures { result ≡ list_any is_equals word.now }
{
    word.iter().any(|byte| *byte == b'=')
}

fn is_binding(word: &[u8]) -> bool
    ensures { result ≡ is_binding word.now }
{
    has_equals(word) && !formal(word).is_empty() && !actual(word).is_empty()
}

/// Whether all the words are bindings.
pub fn are_bindings(words: &Words<'_>) -> bool
    ensures { result ≡ list_all is_binding words.now }
{
    for at in 0..words.len() {
        if !is_binding(word_at(words, at)) {
            return false;
        }
    }
    true
}

//! The words of a line by their places.

ghost use Rattle.std.specs.Prelude.{◌≡◌, bytes_eq, drop};
ghost use Rattle.lid_base.specs.Words.{word_at, begins_with};

use crate::names::Name;

/// The word at a place, or no bytes past the end.
pub fn word_at(words: &[Name], at: usize) -> &[u8]
    ensures { result.now ≡ word_at words.now at }
{
    if at < words.len() {
        words[at].as_slice()
    } else {
        &[]
    }
}

/// The words without the first `count`.
pub fn words_after(words: &[Name], count: usize) -> &[Name]
    ensures { result.now ≡ drop count words.now }
{
    if count < words.len() {
        &words[count..]
    } else {
        &[]
    }
}

/// Whether a word has these bytes.
pub fn is_same(word: &[u8], text: &[u8]) -> bool
    ensures { result ≡ bytes_eq word.now text.now }
{
    word == text
}

/// Whether a line begins with this word.
pub fn begins_with(name: &[u8], words: &[Name]) -> bool
    ensures { result ≡ begins_with name.now words.now }
{
    is_same(word_at(words, 0), name)
}

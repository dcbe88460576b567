//! The words of a certificate's lines.

ghost use Rattle.std.specs.Prelude.{◌≡◌};
ghost use Rattle.std.specs.List.{list_all};
ghost use Rattle.lid_base.specs.Numbers.{is_below, value_below};
ghost use Rattle.lid_cert_text.specs.Texts.{is_via_word, via_value};

use lid_base::{Name, is_below, is_same, number_below, value_below};

/// Numbers of transitions and edges, and depths, lie below this.
pub(crate) const SMALL: u64 = 4_294_967_296;

/// The two numbers of a ratio lie below this.
pub(crate) const RATIO: u64 = 2_147_483_648;

/// Lags and leads lie below this.
pub(crate) const LARGE: u64 = 4_611_686_018_427_387_904;

/// The small number of a word that stands for one, and 0 for any other.
pub(crate) fn small(word: &[u8]) -> u32
    ensures { result ≡ value_below 4294967296 word.now }
{
    value_below(SMALL, word) as u32
}

/// Whether each word stands for a small number.
pub(crate) fn are_small(words: &[Name]) -> bool
    ensures { result ≡ list_all (is_below 4294967296) words.now }
{
    words.iter().all(|word| is_below(SMALL, word.as_slice()))
}

/// Whether a word stands for an edge or is `-`.
pub(crate) fn is_via_word(word: &[u8]) -> bool
    ensures { result ≡ is_via_word word.now }
{
    is_same(word, b"-") || is_below(SMALL, word)
}

/// The edge that a word stands for.
pub(crate) fn via_value(word: &[u8]) -> Option<u32>
    ensures { result ≡ via_value word.now }
{
    match number_below(SMALL, word) {
        Some(number) => Some(number as u32),
        None => None,
    }
}

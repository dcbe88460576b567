//! Bits in words of 64.

ghost use Rattle.std.specs.Prelude.{◌≡◌, ◌≤◌, ◌++◌, length, take, OnOk, OnErr};
ghost use Rattle.lid_texts_packed.specs.Bits.{value_of_bits, words_of};

use std::alloc::AllocError;

/// The word whose lowest bits are these, the first the lowest.
fn word_of(bits: &[bool]) -> u64
    requires { length bits.now ≤ 64 }
    ensures { result ≡ value_of_bits bits.now }
{
    let mut word = 0;
    let mut at = bits.len();
    while at > 0 {
        at -= 1;
        word = u64::from(bits[at]) + 2 * word;
    }
    word
}

/// Appends the words that hold a row.
fn append_words(words: &mut Vec<u64>, row: &[bool]) -> Result<(), AllocError>
    ensures ok { OnOk result (words.new.items ≡ words.old.items ++ words_of row.now) }
    ensures kept { take (length words.old.items) words.new.items ≡ words.old.items }
{
    for k in 0..row.len().div_ceil(64) {
        let start = 64 * k;
        let end = start + 64.min(row.len() - start);
        words.push(word_of(&row[start..end]))?;
    }
    Ok(())
}

/// Appends the words that hold a row, or none of them.
///
/// # Errors
/// Want of memory.
pub(crate) fn append_row(words: &mut Vec<u64>, row: &[bool]) -> Result<(), AllocError>
    ensures ok { OnOk result (words.new.items ≡ words.old.items ++ words_of row.now) }
    ensures kept { OnErr result (words.new.items ≡ words.old.items) }
{
    let len = words.len();
    let appended = append_words(words, row);
    if appended.is_err() {
        words.truncate(len);
    }
    appended
}

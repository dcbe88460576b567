//! Number words: decimal digits, without a leading zero but for `0` itself; and numbers written as
//! such words.

ghost use Rattle.std.specs.Prelude.{◌≡◌, ◌<◌, ◌≤◌, ◌++◌, IfSome, OnOk};
ghost use Rattle.std.specs.Fmt.{decimal};
ghost use Rattle.lid_base.specs.Numbers.{begins_number, number_on, number_below, number, is_below, value_below};
ghost use Rattle.lid_base.specs.Lists.{Keeps};

use itoa::Buffer;
use std::alloc::AllocError;

/// All number words stand for numbers below this.
const END: u128 = 18_446_744_073_709_551_616;

/// Whether a number may begin like this: with no `0` but for the number 0.
fn begins_number(word: &[u8]) -> bool
    ensures { result ≡ begins_number word.now }
{
    match word {
        [] => false,
        [first, after @ ..] => *first != b'0' || after.is_empty(),
    }
}

/// The number that digits stand for, where it is below the limit.
fn digits_below(limit: u128, digits: &[u8]) -> Option<u64>
    requires { limit ≤ 18446744073709551616 }
    ensures value { result ≡ number_on limit 0 digits.now }
    ensures below { IfSome result (λ n. n < limit) }
{
    let mut value: u128 = 0;
    let mut rest = digits;
    while let [digit, after @ ..] = rest {
        if *digit < b'0' || *digit > b'9' || value >= limit {
            return None;
        }
        value = value * 10 + u128::from(*digit - b'0');
        rest = after;
    }
    if value < limit {
        Some(value as u64)
    } else {
        None
    }
}

/// The number that a word stands for, where it is below the limit.
#[tactic(auto, unfolding(crate::specs::Numbers::number_below))]
pub fn number_below(limit: u64, word: &[u8]) -> Option<u64>
    ensures value { result ≡ number_below limit word.now }
    ensures below { IfSome result (λ n. n < limit) }
{
    if begins_number(word) {
        digits_below(u128::from(limit), word)
    } else {
        None
    }
}

/// The number of a number word, which is any below 2^64.
#[tactic(auto, unfolding(crate::specs::Numbers::number_below))]
pub fn number(word: &[u8]) -> Option<u64>
    ensures { result ≡ number word.now }
{
    if begins_number(word) {
        digits_below(END, word)
    } else {
        None
    }
}

/// Whether a word stands for a number below the limit.
pub fn is_below(limit: u64, word: &[u8]) -> bool
    ensures { result ≡ is_below limit word.now }
{
    number_below(limit, word).is_some()
}

/// The number of a word that stands for one, and 0 for any other.
pub fn value_below(limit: u64, word: &[u8]) -> u64
    requires { 0 < limit }
    ensures value { result ≡ value_below limit word.now }
    ensures below { result < limit }
{
    match number_below(limit, word) {
        Some(number) => number,
        None => 0,
    }
}

/// Appends a number as its word.
///
/// # Errors
/// What was there before is still there.
pub fn append_number(number: u64, into: &mut Vec<u8>) -> Result<(), AllocError>
    ensures ok { OnOk result (into.new.items ≡ into.old.items ++ decimal number) }
    ensures kept { Keeps into.old.items into.new.items }
{
    let mut buffer = Buffer::new();
    into.extend_from_slice(buffer.format(number).as_bytes())
}

//! The identifiers of variables, tokens in binary digits, and names.

ghost use Rattle.std.specs.Prelude.{◌≡◌, ℕ, ◌-◌, ◌<◌, ◌≤◌, ◌++◌, ◌/◌, length, bytes_eq, IfSome, OnOk, true};
ghost use Rattle.std.specs.List.{list_all};
ghost use Rattle.lid_base.specs.Lists.{Keeps};
ghost use Rattle.lid_vcd_form.specs.Ids.{id_of, id_value, variable_of, is_bit, are_bits, bits_on, token_in_bits, binary_by, binary, is_token, width_of, ending_of};
ghost use Rattle.lid_vcd_form.specs.Form.{is_number, is_stem, is_name};

use lid_base::{is_same, number_below};
use std::alloc::AllocError;

/// The digit that a character is in base 94.
fn digit(b: u8) -> u32
    ensures value { result ≡ b - 33 }
    ensures small { result < 223 }
{
    u32::from(b.saturating_sub(33))
}

/// The number that one, two or three digits stand for, and 0 for any other.
fn id_value(word: &[u8]) -> u32
    ensures { result ≡ id_value word.now }
{
    match word {
        [a] => digit(*a),
        [a, b] => digit(*a) + 94 * digit(*b),
        [a, b, c] => digit(*a) + 94 * digit(*b) + 8836 * digit(*c),
        _ => 0,
    }
}

/// Whether a word is the ID of a variable.
#[tactic(auto, unfolding(crate::specs::Ids::id_of))]
pub(crate) fn is_id(n: u32, word: &[u8]) -> bool
    ensures { result ≡ bytes_eq word.now (id_of n) }
{
    let last = (33 + n % 94) as u8;
    if n < 94 {
        return is_same(word, &[(33 + n) as u8]);
    }
    if n < 8836 {
        return is_same(word, &[last, (33 + n / 94) as u8]);
    }
    is_same(
        word,
        &[last, (33 + n / 94 % 94) as u8, (33 + n / 8836 % 94) as u8],
    )
}

/// The variable, of so many, that a word is the ID of.
#[tactic(auto, unfolding(crate::specs::Ids::variable_of))]
pub(crate) fn variable_of(variables: u32, word: &[u8]) -> Option<u32>
    ensures { result ≡ variable_of variables word.now }
{
    let n = id_value(word);
    if n < variables && is_id(n, word) {
        Some(n)
    } else {
        None
    }
}

/// Whether all characters are `0` or `1`.
fn has_only_bits(word: &[u8]) -> bool
    ensures { result ≡ list_all is_bit word.now }
{
    word.iter().all(|b| *b == b'0' || *b == b'1')
}

/// Whether these are 1 to 31 characters `0` or `1`.
fn are_bits(word: &[u8]) -> bool
    ensures { result ≡ are_bits word.now }
{
    !word.is_empty() && word.len() <= 31 && has_only_bits(word)
}

/// The number of binary digits.
fn bits_value(word: &[u8]) -> u32
    requires few { length word.now ≤ 31 }
    requires bits { list_all is_bit word.now ≡ true }
    ensures { result ≡ bits_on 0 word.now }
{
    let mut value = 0;
    let mut rest = word;
    while let [b, after @ ..] = rest {
        value = 2 * value + u32::from(b.saturating_sub(b'0'));
        rest = after;
    }
    value
}

/// The token that binary digits stand for.
#[tactic(auto, unfolding(crate::specs::Ids::token_in_bits))]
pub(crate) fn token_of(word: &[u8]) -> Option<u32>
    ensures { result ≡ token_in_bits word.now }
{
    if are_bits(word) {
        Some(bits_value(word))
    } else {
        None
    }
}

/// Whether a variable is the token of its station.
pub(crate) fn is_token(n: u32) -> bool
    ensures { result ≡ is_token n }
{
    n % 3 == 2
}

/// The width of a variable as a word.
pub(crate) fn width_of(n: u32) -> &'static [u8]
    ensures { result.now ≡ width_of n }
{
    if is_token(n) { b"31" } else { b"1" }
}

/// What the name of a variable ends in.
pub(crate) fn ending_of(n: u32) -> &'static [u8]
    ensures { result.now ≡ ending_of n }
{
    match n % 3 {
        0 => b"_valid",
        1 => b"_stop",
        _ => b"_token",
    }
}

/// Whether a word is `s` and the number of a station.
fn is_stem(station: u32, stem: &[u8]) -> bool
    ensures { result ≡ is_stem station stem.now }
{
    match stem {
        [b's', digits @ ..] => match number_below(4_294_967_296, digits) {
            Some(number) => number == u64::from(station),
            None => false,
        },
        _ => false,
    }
}

/// Whether a word is the name of a variable.
#[tactic(auto, unfolding(crate::specs::Form::is_name))]
pub(crate) fn is_name(n: u32, word: &[u8]) -> bool
    ensures { result ≡ is_name n word.now }
{
    let ending = ending_of(n);
    let (stem, end) = word.split_at(word.len().saturating_sub(ending.len()));
    is_same(end, ending) && is_stem(n / 3, stem)
}

/// Appends the ID of a variable.
///
/// # Errors
/// What was there before is still there.
#[tactic(auto, unfolding(crate::specs::Ids::id_of))]
pub fn append_id(n: u32, into: &mut Vec<u8>) -> Result<(), AllocError>
    ensures ok { OnOk result (into.new.items ≡ into.old.items ++ id_of n) }
    ensures kept { Keeps into.old.items into.new.items }
{
    let last = (33 + n % 94) as u8;
    if n < 94 {
        return into.extend_from_slice(&[(33 + n) as u8]);
    }
    if n < 8836 {
        return into.extend_from_slice(&[last, (33 + n / 94) as u8]);
    }
    into.extend_from_slice(&[last, (33 + n / 94 % 94) as u8, (33 + n / 8836 % 94) as u8])
}

/// Appends the last binary digits of a number, at most so many and without leading zeros.
fn append_digits(digits: u32, number: u32, into: &mut Vec<u8>) -> Result<(), AllocError>
    ensures ok { OnOk result (into.new.items ≡ into.old.items ++ binary_by digits number) }
    ensures kept { Keeps into.old.items into.new.items }
{
    if digits == 0 {
        return Ok(());
    }
    if number >= 2 {
        append_digits(digits - 1, number / 2, into)?;
    }
    into.push(b'0' + (number % 2) as u8)?;
    Ok(())
}

/// Appends a token below 2^31 in binary digits, without leading zeros.
///
/// # Errors
/// What was there before is still there.
#[tactic(auto, unfolding(crate::specs::Ids::binary))]
pub(crate) fn append_binary(number: u32, into: &mut Vec<u8>) -> Result<(), AllocError>
    ensures ok { OnOk result (into.new.items ≡ into.old.items ++ binary number) }
    ensures kept { Keeps into.old.items into.new.items }
{
    append_digits(31, number, into)
}

//! The forms of lines of stations and wires.

ghost use Rattle.std.specs.Prelude.{◌≡◌, ◌≤◌, ◌+◌, ◌^◌, ◌++◌, map, replicate, true, OnOk};
ghost use Rattle.std.specs.List.{list_all};
ghost use Rattle.lid_base.specs.Numbers.{value_below};
ghost use Rattle.lid_stations_text.specs.Forms.{IsForm, is_header, stations_form, form_by, is_shell_word, is_node_word, is_number_word, begins_well, amount, has_length, has_form, relays_along, relays_of, is_empty_wire, is_capacity_word, has_capacities, caps_of};

use lid_base::{Name, is_same, number, word_at, words_after};
use std::alloc::AllocError;

/// What a text tells.
#[derive(Clone, Copy)]
pub(crate) enum Kind {
    /// The relay stations of channels, and the capacities of all their stations.
    Stations,
    /// The lengths of channels, where a relay station stands after each `reach`.
    Wires { reach: u64 },
}

/// The form of the lines after the header.
#[derive(Clone, Copy)]
pub(crate) enum Form {
    /// `FROM TO PIECE COUNT`
    Relays,
    /// `FROM TO PIECE COUNT C0 .. CK`
    Capacities,
    /// `FROM TO PIECE LENGTH`
    Wires { reach: u64 },
}

/// Whether a line has these two words.
fn is_header(name: &[u8], version: &[u8], words: &[Name]) -> bool
    ensures { result ≡ is_header name.now version.now words.now }
{
    words.len() == 2 && is_same(word_at(words, 0), name) && is_same(word_at(words, 1), version)
}

/// The form of lines after the header of stations.
fn stations_form(words: &[Name]) -> Option<Form>
    ensures { result ≡ stations_form words.now }
{
    if is_header(b"lid-stations", b"1", words) {
        return Some(Form::Relays);
    }
    if is_header(b"lid-stations", b"2", words) {
        return Some(Form::Capacities);
    }
    None
}

/// The form of the lines after a header, or none where it is not the header of such a text.
pub(crate) fn form_by(kind: Kind, words: &[Name]) -> Option<Form>
    ensures { result ≡ form_by kind words.now }
{
    match kind {
        Kind::Stations => stations_form(words),
        Kind::Wires { reach } => {
            if is_header(b"lid-wires", b"1", words) {
                Some(Form::Wires { reach })
            } else {
                None
            }
        }
    }
}

/// Whether a word is `u` and a number word.
fn is_shell_word(word: &[u8]) -> bool
    ensures { result ≡ is_shell_word word.now }
{
    match word {
        [first, after @ ..] => *first == b'u' && number(after).is_some(),
        [] => false,
    }
}

/// Whether a word has the form of a node's name.
fn is_node_word(word: &[u8]) -> bool
    ensures { result ≡ is_node_word word.now }
{
    is_same(word, b"in") || is_same(word, b"out") || is_shell_word(word)
}

fn is_number_word(word: &[u8]) -> bool
    ensures { result ≡ is_number_word word.now }
{
    number(word).is_some()
}

/// Whether all words are number words.
fn are_number_words(words: &[Name]) -> bool
    ensures { result ≡ list_all is_number_word words.now }
{
    words.iter().all(|word| is_number_word(word.as_slice()))
}

/// Whether a line begins with two names of nodes and two number words.
fn begins_well(words: &[Name]) -> bool
    ensures { result ≡ begins_well words.now }
{
    is_node_word(word_at(words, 0))
        && is_node_word(word_at(words, 1))
        && is_number_word(word_at(words, 2))
        && is_number_word(word_at(words, 3))
}

/// The number of a number word, and 0 for any other.
fn value(word: &[u8]) -> u64
    ensures { result ≡ value_below (2 ^ 64) word.now }
{
    match number(word) {
        Some(value) => value,
        None => 0,
    }
}

/// How many relay stations, or how long.
fn amount(words: &[Name]) -> u64
    ensures { result ≡ amount words.now }
{
    value(word_at(words, 3))
}

/// Whether a line has as many words as the form asks for.
fn has_length(form: Form, words: &[Name]) -> bool
    ensures { result ≡ has_length form words.now }
{
    match form {
        Form::Relays => words.len() == 4,
        Form::Capacities => words.len() >= 5 && (words.len() - 5) as u64 == amount(words),
        Form::Wires { .. } => words.len() == 4,
    }
}

/// Whether a line has the form that is due.
pub(crate) fn has_form(form: Form, words: &[Name]) -> bool
    ensures { result ≡ has_form form words.now }
{
    begins_well(words) && has_length(form, words) && are_number_words(words_after(words, 4))
}

/// The relay stations of a wire.
fn relays_along(reach: u64, long: u64) -> u64
    requires { 1 ≤ reach }
    ensures { result ≡ relays_along reach long }
{
    long.div_ceil(reach).saturating_sub(1)
}

/// The relay stations that a line asks for.
pub(crate) fn relays_of(form: Form, words: &[Name]) -> u64
    requires { IsForm form }
    ensures { result ≡ relays_of form words.now }
{
    match form {
        Form::Relays => amount(words),
        Form::Capacities => amount(words),
        Form::Wires { reach } => relays_along(reach, amount(words)),
    }
}

/// Whether a line is that of a wire of length 0.
pub(crate) fn is_empty_wire(form: Form, words: &[Name]) -> bool
    ensures { result ≡ is_empty_wire form words.now }
{
    match form {
        Form::Wires { .. } => amount(words) == 0,
        Form::Relays => false,
        Form::Capacities => false,
    }
}

/// Whether a word is a capacity in 2 to 16.
fn is_capacity_word(word: &[u8]) -> bool
    ensures { result ≡ is_capacity_word word.now }
{
    let capacity = value(word);
    2 <= capacity && capacity <= 16
}

/// Whether all capacities that a line names are in 2 to 16.
pub(crate) fn has_capacities(words: &[Name]) -> bool
    ensures { result ≡ has_capacities words.now }
{
    words_after(words, 4)
        .iter()
        .all(|word| is_capacity_word(word.as_slice()))
}

/// Appends so many capacities of 2, and one more.
fn push_twos(relays: u64, caps: &mut Vec<u32>) -> Result<(), AllocError>
    requires { relays ≤ 64 }
    ensures { OnOk result (caps.new.items ≡ caps.old.items ++ replicate (relays + 1) 2) }
{
    caps.resize(caps.len() + relays as usize + 1, 2)
}

/// Appends the capacities that words name.
fn push_named(words: &[Name], caps: &mut Vec<u32>) -> Result<(), AllocError>
    requires { list_all is_capacity_word words.now ≡ true }
    ensures { OnOk result (caps.new.items ≡ caps.old.items ++ map (value_below (2 ^ 64)) words.now) }
{
    for word in words {
        caps.push(value(word.as_slice()) as u32)?;
    }
    Ok(())
}

/// Appends the capacities that a line gives.
pub(crate) fn push_caps(form: Form, words: &[Name], caps: &mut Vec<u32>) -> Result<(), AllocError>
    requires form { IsForm form }
    requires few { relays_of form words.now ≤ 64 }
    requires small { has_capacities words.now ≡ true }
    ensures { OnOk result (caps.new.items ≡ caps.old.items ++ caps_of form words.now) }
{
    match form {
        Form::Capacities => push_named(words_after(words, 4), caps),
        Form::Relays => push_twos(relays_of(form, words), caps),
        Form::Wires { .. } => push_twos(relays_of(form, words), caps),
    }
}

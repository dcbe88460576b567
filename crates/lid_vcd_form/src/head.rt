//! The sections of a dump before its body.

ghost use Rattle.std.specs.Prelude.{◌≡◌, ℕ, Option};
ghost use Rattle.lid_vcd_form.specs.Form.{
  is_end,
  is_note,
  only,
  begins_variable,
  begins,
  before_section,
  in_note,
  in_timescale,
  in_scope,
  in_variable,
  in_section,
};

use crate::form::{Next, Place, Section};
use crate::ids::{is_id, is_name, width_of};
use lid_base::is_same;

/// The most variables: three for each of 65,536 stations.
const MOST_VARIABLES: u32 = 196_608;

/// Whether a word ends a section.
fn is_end(word: &[u8]) -> bool
    ensures { result ≡ is_end word.now }
{
    is_same(word, b"$end")
}

/// Whether a word begins a note.
fn is_note(word: &[u8]) -> bool
    ensures { result ≡ is_note word.now }
{
    is_same(word, b"$date") || is_same(word, b"$version") || is_same(word, b"$comment")
}

/// A place, where this holds.
fn only(holds: bool, variables: u32, next: Next) -> Option<Place>
    ensures { result ≡ only holds variables next }
{
    if holds {
        Some(Place { variables, next })
    } else {
        None
    }
}

/// The place where a section goes on after its words so far.
fn inside(holds: bool, variables: u32, section: Section, words: u32) -> Option<Place>
    ensures { result ≡ only holds variables (Next.Inside section words) }
{
    only(holds, variables, Next::Inside { section, words })
}

/// The place before a section.
fn before(holds: bool, variables: u32, section: Section) -> Option<Place>
    ensures { result ≡ only holds variables (Next.Before section) }
{
    only(holds, variables, Next::Before { section })
}

/// The place after the first word of a declaration, or of what comes after all of them.
#[tactic(auto, unfolding(crate::specs::Form::begins_variable))]
fn begins_variable(variables: u32, word: &[u8]) -> Option<Place>
    ensures { result ≡ begins_variable variables word.now }
{
    if is_same(word, b"$var") {
        if variables < MOST_VARIABLES {
            return inside(true, variables + 1, Section::Variable, 1);
        }
        return None;
    }
    let whole = is_same(word, b"$upscope") && variables % 3 == 0;
    inside(whole, variables, Section::Upscope, 1)
}

/// The place after the first word of a section.
#[tactic(auto, unfolding(crate::specs::Form::begins))]
fn begins(variables: u32, section: Section, word: &[u8]) -> Option<Place>
    ensures { result ≡ begins variables section word.now }
{
    match section {
        Section::Timescale => inside(is_same(word, b"$timescale"), variables, section, 1),
        Section::Scope => inside(is_same(word, b"$scope"), variables, section, 1),
        Section::Variable => begins_variable(variables, word),
        Section::Upscope => inside(is_same(word, b"$upscope"), variables, section, 1),
        Section::Definitions => inside(is_same(word, b"$enddefinitions"), variables, section, 1),
        Section::Body => only(is_same(word, b"#0"), variables, Next::Time { at: 0 }),
    }
}

/// The place after the next word, where a section or a note before it comes next.
pub(crate) fn before_section(variables: u32, section: Section, word: &[u8]) -> Option<Place>
    ensures { result ≡ before_section variables section word.now }
{
    if is_note(word) {
        return Some(Place {
            variables,
            next: Next::Note { section },
        });
    }
    begins(variables, section, word)
}

/// The place after the next word of a note.
pub(crate) fn in_note(variables: u32, section: Section, word: &[u8]) -> Place
    ensures { Option.Some result ≡ in_note variables section word.now }
{
    if is_end(word) {
        return Place {
            variables,
            next: Next::Before { section },
        };
    }
    Place {
        variables,
        next: Next::Note { section },
    }
}

/// The place after the next word of the time scale.
fn in_timescale(variables: u32, word: &[u8]) -> Option<Place>
    ensures { result ≡ in_timescale variables word.now }
{
    if is_end(word) {
        return before(true, variables, Section::Scope);
    }
    inside(true, variables, Section::Timescale, 1)
}

/// The place after the next word of the scope.
#[tactic(auto, unfolding(crate::specs::Form::in_scope))]
fn in_scope(variables: u32, words: u32, word: &[u8]) -> Option<Place>
    ensures { result ≡ in_scope variables words word.now }
{
    match words {
        1 => inside(is_same(word, b"module"), variables, Section::Scope, 2),
        2 => inside(is_same(word, b"lid"), variables, Section::Scope, 3),
        _ => before(is_end(word), variables, Section::Variable),
    }
}

/// The place after the next word of a declaration.
#[tactic(auto, unfolding(crate::specs::Form::in_variable))]
fn in_variable(variables: u32, words: u32, word: &[u8]) -> Option<Place>
    ensures { result ≡ in_variable variables words word.now }
{
    let variable = variables.saturating_sub(1);
    match words {
        1 => inside(is_same(word, b"wire"), variables, Section::Variable, 2),
        2 => inside(
            is_same(word, width_of(variable)),
            variables,
            Section::Variable,
            3,
        ),
        3 => inside(is_id(variable, word), variables, Section::Variable, 4),
        4 => inside(is_name(variable, word), variables, Section::Variable, 5),
        _ => before(is_end(word), variables, Section::Variable),
    }
}

/// The place after the next word of a section of which so many words were read.
pub(crate) fn in_section(variables: u32, section: Section, words: u32, word: &[u8]) -> Option<Place>
    ensures { result ≡ in_section variables section words word.now }
{
    match section {
        Section::Timescale => in_timescale(variables, word),
        Section::Scope => in_scope(variables, words, word),
        Section::Variable => in_variable(variables, words, word),
        Section::Upscope => before(is_end(word), variables, Section::Definitions),
        Section::Definitions => before(is_end(word), variables, Section::Body),
        Section::Body => None,
    }
}

//! What each word of a dump may be, by what was read before it.

ghost use Rattle.std.specs.Prelude.{◌≡◌, ℕ, ◌∷◌, Option, if◌then◌else◌};
ghost use Rattle.lid_base.specs.Numbers.{number_below};
ghost use Rattle.lid_vcd_form.specs.Ids.{variable_of, token_in_bits};
ghost use Rattle.lid_vcd_form.specs.Form.{later, bit_set, token_read, token_set, change, in_body, step, start, is_time};
ghost use Rattle.lid_vcd_form.specs.Shows.{time_of};

use crate::head::{before_section, in_note, in_section};
use crate::ids::{is_token, token_of, variable_of};
use lid_base::number_below;

/// A part of a dump. A part is told by what it begins with; `Body` begins with `#0`.
#[derive(Clone, Copy)]
pub enum Section {
    Timescale,
    Scope,
    /// A declaration of a variable.
    Variable,
    Upscope,
    Definitions,
    Body,
}

/// What was read last. It says what may come next.
#[derive(Clone, Copy)]
pub enum Next {
    /// What stands before this section was read.
    Before { section: Section },
    /// A note before this section goes on.
    Note { section: Section },
    /// So many words of this section were read.
    Inside { section: Section, words: u32 },
    /// The time `#at`.
    Time { at: u32 },
    /// A change of a variable, after `#at`.
    Set { at: u32, variable: u32, value: u32 },
    /// The bits of a token, after `#at`. The ID of its variable comes next.
    Bits { at: u32, value: u32 },
}

/// How many variables were declared, with the one that is being declared, and what was read last.
#[derive(Clone, Copy)]
pub struct Place {
    pub variables: u32,
    pub next: Next,
}

/// The place after a time word.
fn later(variables: u32, at: u32, digits: &[u8]) -> Option<Place>
    ensures { result ≡ later variables at (number_below 4294967296 digits.now) }
{
    match number_below(4_294_967_296, digits) {
        Some(time) if time > u64::from(at) => Some(Place {
            variables,
            next: Next::Time { at: time as u32 },
        }),
        _ => None,
    }
}

/// The place after a change of a variable, which is a token, or else a bit.
fn variable_set(variables: u32, at: u32, value: u32, id: &[u8], token: bool) -> Option<Place>
    ensures { result ≡ (if token then token_set variables at value (variable_of variables id.now) else bit_set variables at value
        (variable_of variables id.now)) }
{
    match variable_of(variables, id) {
        Some(variable) if is_token(variable) == token => Some(Place {
            variables,
            next: Next::Set {
                at,
                variable,
                value,
            },
        }),
        _ => None,
    }
}

/// The place after the bits of a token.
fn token_read(variables: u32, at: u32, bits: &[u8]) -> Option<Place>
    ensures { result ≡ token_read variables at (token_in_bits bits.now) }
{
    match token_of(bits) {
        Some(value) if variables > 0 => Some(Place {
            variables,
            next: Next::Bits { at, value },
        }),
        _ => None,
    }
}

/// The place after the first word of a change.
fn change(variables: u32, at: u32, mark: u8, rest: &[u8]) -> Option<Place>
    ensures { result ≡ change variables at mark rest.now }
{
    if mark == b'0' || mark == b'1' {
        return variable_set(variables, at, u32::from(mark - b'0'), rest, false);
    }
    if mark == b'b' {
        return token_read(variables, at, rest);
    }
    None
}

/// The place after a time or the first word of a change.
#[tactic(auto, unfolding(crate::specs::Form::in_body))]
fn in_body(variables: u32, at: u32, word: &[u8]) -> Option<Place>
    ensures { result ≡ in_body variables at word.now }
{
    match word {
        [] => None,
        [mark, rest @ ..] => {
            if *mark == b'#' {
                return later(variables, at, rest);
            }
            if at < u32::MAX {
                return change(variables, at, *mark, rest);
            }
            None
        }
    }
}

/// The place after the next word. `None` says that no dump goes on by this word. It takes no memory.
#[tactic(auto, unfolding(crate::specs::Form::step))]
pub fn step(place: Place, word: &[u8]) -> Option<Place>
    ensures { result ≡ step place word.now }
{
    let variables = place.variables;
    match place.next {
        Next::Before { section } => before_section(variables, section, word),
        Next::Note { section } => Some(in_note(variables, section, word)),
        Next::Inside { section, words } => in_section(variables, section, words, word),
        Next::Time { at } | Next::Set { at, .. } => in_body(variables, at, word),
        Next::Bits { at, value } => variable_set(variables, at, value, word, true),
    }
}

impl Place {
    /// Before the first word.
    pub fn start() -> Place
        ensures { result ≡ start }
    {
        Place {
            variables: 0,
            next: Next::Before {
                section: Section::Timescale,
            },
        }
    }

    /// Whether a text may end here: after a time.
    pub fn is_time(self) -> bool
        ensures { result ≡ is_time self.next }
    {
        match self.next {
            Next::Time { .. } => true,
            _ => false,
        }
    }

    /// The last time, and 0 before the body.
    pub fn time(self) -> u32
        ensures { result ≡ time_of self.next }
    {
        match self.next {
            Next::Time { at } => at,
            Next::Set { at, .. } => at,
            Next::Bits { at, .. } => at,
            _ => 0,
        }
    }
}

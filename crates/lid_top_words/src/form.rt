//! The form of the words: which row of the table they name, and whether they keep to it.

ghost use Rattle.std.specs.Prelude.{◌≡◌, ◌==◌, ◌&&◌, length, map, option_map};
ghost use Rattle.std.specs.List.{list_all};
ghost use Rattle.lid_top_words.specs.Reading.{matches_in};
ghost use Rattle.lid_top_words.specs.Jobs.{form_shown, form_among, form_in, option_fits, files_fit, files_in, has_form};

use crate::given::{files, has_each, has_only, is_given, is_tallied, value_of};
use crate::range::fits;
use crate::table::{COMMAND, FORMS, Form, OPTIONS, STALLS, WORKERS};
use clap::ArgMatches;

/// Whether an option has a value that may stand there, where it stands in the words.
#[tactic(auto, unfolding(crate::specs::Jobs::option_fits))]
fn option_fits(given: &ArgMatches<'_>, name: &str) -> bool
    ensures { result ≡ option_fits (matches_in given.now) name.now }
{
    match value_of(given, name) {
        Some(value) => fits(name, value),
        None => true,
    }
}

/// Whether these options have values that may stand there.
fn options_fit(given: &ArgMatches<'_>, names: &[&str]) -> bool
    ensures { result ≡ list_all (option_fits (matches_in given.now)) (map (λ n. n.now) names.now) }
{
    for name in names {
        if !option_fits(given, name) {
            return false;
        }
    }
    true
}

/// Whether what stands in each place may stand there.
fn files_fit(files: &[&str], places: &[&str]) -> bool
    ensures { result ≡ files_fit (map (λ f. f.now) files.now) (map (λ p. p.now) places.now) }
{
    let mut more = files;
    let mut free = places;
    while !more.is_empty() && !free.is_empty() {
        if !fits(free[0], more[0]) {
            return false;
        }
        more = &more[1..];
        free = &free[1..];
    }
    true
}

/// Whether the places are those of a form.
#[tactic(auto, unfolding(crate::specs::Jobs::files_in))]
fn has_places(given: &ArgMatches<'_>, places: &[&str]) -> bool
    ensures { result ≡ (length (files_in (matches_in given.now)) == length places.now
        && files_fit (files_in (matches_in given.now)) (map (λ p. p.now) places.now)) }
{
    match files(given) {
        Some(files) => files.len() == places.len() && files_fit(files, places),
        None => places.is_empty(),
    }
}

/// Whether the words have a form.
#[tactic(auto, unfolding(crate::specs::Jobs::has_form, crate::specs::Jobs::has_both))]
pub fn has_form(form: Form, given: &ArgMatches<'_>) -> bool
    ensures { result ≡ has_form (form_shown form.entry) (matches_in given.now) }
{
    let (_, _, places, needed, further, has_tally) = form;
    has_places(given, places)
        && has_each(given, needed)
        && has_only(given, needed, further)
        && options_fit(given, &OPTIONS)
        && !(is_given(given, STALLS) && is_given(given, WORKERS))
        && (has_tally || !is_tallied(given))
}

/// The form among these that a word names.
fn find_form(forms: &[Form], word: &str) -> Option<Form>
    ensures { option_map form_shown result ≡ form_among (map form_shown forms.now) word.now }
{
    for form in forms {
        let (_, name, ..) = *form;
        if name == word {
            return Some(*form);
        }
    }
    None
}

/// The form that the command's word names.
#[tactic(auto, unfolding(crate::specs::Jobs::form_in))]
pub fn form_of(given: &ArgMatches<'_>) -> Option<Form>
    ensures { option_map form_shown result ≡ form_in (matches_in given.now) }
{
    match value_of(given, COMMAND) {
        Some(word) => find_form(&FORMS, word),
        None => None,
    }
}

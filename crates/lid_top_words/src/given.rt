//! What stands in the words, as `clap` found it.

ghost use Rattle.std.specs.Prelude.{◌≡◌, IfOk, map, option_map, slice_index_or, []};
ghost use Rattle.std.specs.List.{list_all};
ghost use Rattle.clap.specs.Words.{all_of, first_of};
ghost use Rattle.lid_top_words.specs.Reading.{matches_in};
ghost use Rattle.lid_top_words.specs.Jobs.{is_given, is_tallied, is_one_of, is_allowed, files_in, file_at, name_in, root_in, has_only, has_each};

use crate::table::{FILES, OPTIONS, ROOT, TALLY};
use clap::ArgMatches;
use lid_base::{Name, Text, copy_name};
use std::alloc::{AllocError, Global};

/// The value of an option or of the command's place.
pub fn value_of<'a>(given: &ArgMatches<'a>, name: &str) -> Option<&'a str>
    ensures { option_map (λ s. s.now) result ≡ first_of name.now (matches_in given.now) }
{
    given.get_str(name)
}

/// Whether an option stands in the words.
#[tactic(auto, unfolding(crate::specs::Jobs::is_given))]
pub fn is_given(given: &ArgMatches<'_>, name: &str) -> bool
    ensures { result ≡ is_given (matches_in given.now) name.now }
{
    value_of(given, name).is_some()
}

/// Whether the flag stands in the words.
#[tactic(auto, unfolding(crate::specs::Jobs::is_tallied))]
pub fn is_tallied(given: &ArgMatches<'_>) -> bool
    ensures { result ≡ is_tallied (matches_in given.now) }
{
    match value_of(given, TALLY) {
        Some(text) => text == "true",
        None => false,
    }
}

/// The files in their order, where there are some.
pub fn files<'m, 'a>(given: &'m ArgMatches<'a>) -> Option<&'m [&'a str]>
    ensures { option_map (λ s. map (λ f. f.now) s.now) result ≡ all_of FILES.now (matches_in given.now) }
{
    given.get_strs(FILES)
}

/// The name of a file by its place; no text where there is none.
#[tactic(auto, unfolding(crate::specs::Jobs::files_in, crate::specs::Jobs::file_at))]
pub fn file_at<'a>(given: &ArgMatches<'a>, at: usize) -> &'a str
    ensures { result.now ≡ file_at at (matches_in given.now) }
{
    match files(given) {
        Some(names) => name_at(names, at),
        None => "",
    }
}

/// The name at a place; no text where there is none.
fn name_at<'a>(names: &[&'a str], at: usize) -> &'a str
    ensures { result.now ≡ slice_index_or (map (λ n. n.now) names.now) at [] }
{
    match names.get(at) {
        Some(name) => name,
        None => "",
    }
}

/// The text of the name of a file by its place.
pub fn file_text(alloc: Global, given: &ArgMatches<'_>, at: usize) -> Result<Text, AllocError>
    ensures { IfOk result (λ text. text ≡ file_at at (matches_in given.now)) }
{
    Ok(Text::new(String::from_str(alloc, file_at(given, at))?))
}

/// The text of the value of an option; no text where it does not stand in the words.
#[tactic(auto, unfolding(crate::specs::Jobs::name_in))]
pub fn text_of(alloc: Global, given: &ArgMatches<'_>, option: &str) -> Result<Text, AllocError>
    ensures { IfOk result (λ text. text ≡ name_in option.now (matches_in given.now)) }
{
    let value = match value_of(given, option) {
        Some(value) => value,
        None => "",
    };
    Ok(Text::new(String::from_str(alloc, value)?))
}

/// The text of the value of an option, where it stands in the words.
pub fn text_if_given(
    alloc: Global,
    given: &ArgMatches<'_>,
    option: &str,
) -> Result<Option<Text>, AllocError>
    ensures { IfOk result (λ text. text ≡ first_of option.now (matches_in given.now)) }
{
    match value_of(given, option) {
        Some(value) => Ok(Some(Text::new(String::from_str(alloc, value)?))),
        None => Ok(None),
    }
}

/// The name of the root, where it is given.
pub fn root_of(alloc: Global, given: &ArgMatches<'_>) -> Result<Option<Name>, AllocError>
    ensures { IfOk result (λ name. name ≡ root_in (matches_in given.now)) }
{
    match value_of(given, ROOT) {
        Some(value) => Ok(Some(copy_name(alloc, value.as_bytes())?)),
        None => Ok(None),
    }
}

/// Whether a name is one of these.
fn is_one_of(name: &str, names: &[&str]) -> bool
    ensures { result ≡ is_one_of name.now (map (λ n. n.now) names.now) }
{
    for known in names {
        if *known == name {
            return true;
        }
    }
    false
}

/// Whether an option is one of those that must or may stand, where it stands in the words.
#[tactic(auto, unfolding(crate::specs::Jobs::is_allowed))]
fn is_allowed(given: &ArgMatches<'_>, needed: &[&str], further: &[&str], name: &str) -> bool
    ensures { result ≡ is_allowed (map (λ o. o.now) needed.now) (map (λ o. o.now) further.now) (matches_in given.now) name.now }
{
    !is_given(given, name) || is_one_of(name, needed) || is_one_of(name, further)
}

/// Whether each of these names is that of an option that stands only where it may.
fn are_allowed(given: &ArgMatches<'_>, needed: &[&str], further: &[&str], names: &[&str]) -> bool
    ensures { result ≡ list_all (is_allowed (map (λ o. o.now) needed.now) (map (λ o. o.now) further.now) (matches_in given.now)) (map (λ n. n.now) names.now) }
{
    for name in names {
        if !is_allowed(given, needed, further, name) {
            return false;
        }
    }
    true
}

/// Whether no option stands in the words but those that must or may.
#[tactic(auto, unfolding(crate::specs::Jobs::has_only))]
pub fn has_only(given: &ArgMatches<'_>, needed: &[&str], further: &[&str]) -> bool
    ensures { result ≡ has_only (map (λ o. o.now) needed.now) (map (λ o. o.now) further.now) (matches_in given.now) }
{
    are_allowed(given, needed, further, &OPTIONS)
}

/// Whether these options stand in the words.
#[tactic(auto, unfolding(crate::specs::Jobs::has_each))]
pub fn has_each(given: &ArgMatches<'_>, options: &[&str]) -> bool
    ensures { result ≡ has_each (map (λ o. o.now) options.now) (matches_in given.now) }
{
    for option in options {
        if !is_given(given, option) {
            return false;
        }
    }
    true
}

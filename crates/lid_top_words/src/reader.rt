//! How the words are read: as one simple command of `clap`.

ghost use Rattle.std.specs.Prelude.{◌≡◌, ◌≢◌, IfOk, option_map, map, false, None};
ghost use Rattle.clap.specs.Words.{app_of, rule_of, with_rule, kind_of};
ghost use Rattle.lid_top_words.specs.Reading.{bare_app, option_rule, flag_rule, command_rule, files_rule, with_options, lid_app, given_in, matches_in};

use crate::table::{COMMAND, FILES, OPTIONS, TALLY};
use clap::error::ErrorKind;
use clap::{Arg, ArgAction, ArgMatches, Command, Error};
use lid_base::Text;
use std::alloc::{AllocError, Global};

/// A command without arguments, whose words begin at the first one, and which has neither a help
/// nor a version flag.
fn bare_command<'a>(alloc: Global) -> Command<'a>
    ensures { app_of result ≡ bare_app }
{
    Command::new(alloc, "lid")
        .no_binary_name(true)
        .disable_help_flag(true)
        .disable_version_flag(true)
}

/// The place of the command's word.
fn command_arg<'a>(alloc: Global) -> Arg<'a>
    ensures rule { rule_of result ≡ command_rule }
    ensures local { result.global ≡ false }
{
    Arg::new(alloc, COMMAND)
}

/// The place of the files: any number of them.
fn files_arg<'a>(alloc: Global) -> Arg<'a>
    ensures rule { rule_of result ≡ files_rule }
    ensures local { result.global ≡ false }
{
    Arg::new(alloc, FILES)
        .action(ArgAction::Append)
        .num_args(0..)
}

/// An option with one value.
fn option_arg<'a>(alloc: Global, name: &'a str) -> Arg<'a>
    ensures rule { rule_of result ≡ option_rule name.entry.now }
    ensures local { result.global ≡ false }
{
    Arg::new(alloc, name).long(name)
}

/// The flag.
fn flag_arg<'a>(alloc: Global) -> Arg<'a>
    ensures rule { rule_of result ≡ flag_rule TALLY.now }
    ensures local { result.global ≡ false }
{
    Arg::new(alloc, TALLY)
        .long(TALLY)
        .action(ArgAction::SetTrue)
}

/// A command with one more argument.
fn with_arg<'a>(command: Command<'a>, arg: Arg<'a>) -> Result<Command<'a>, AllocError>
    requires { arg.global ≡ false }
    ensures { IfOk result (λ r. app_of r ≡ with_rule (app_of command.entry) (rule_of arg.entry)) }
{
    command.arg(arg)
}

/// A command with options of these names after its arguments.
fn with_options<'a>(
    alloc: Global,
    command: Command<'a>,
    names: &[&'a str],
) -> Result<Command<'a>, AllocError>
    ensures { IfOk result (λ r. app_of r ≡ with_options (app_of command.entry) (map (λ n. n.now) names.now)) }
{
    let mut command = command;
    for name in names {
        command = with_arg(command, option_arg(alloc, name))?;
    }
    Ok(command)
}

/// The one simple command by which all words are read.
#[tactic(auto, unfolding(crate::specs::Reading::lid_app))]
fn lid_command<'a>(alloc: Global) -> Result<Command<'a>, AllocError>
    ensures { IfOk result (λ r. app_of r ≡ lid_app) }
{
    let command = with_arg(bare_command(alloc), command_arg(alloc))?;
    let command = with_arg(command, files_arg(alloc))?;
    let command = with_options(alloc, command, &OPTIONS)?;
    with_arg(command, flag_arg(alloc))
}

/// Why there are no matches: a fault in the words is an answer, want of memory is none.
fn without_matches<'a>(error: &Error) -> Result<Option<ArgMatches<'a>>, AllocError>
    ensures { IfOk result (λ m. (m ≡ None) × (kind_of error.now ≢ ErrorKind.OutOfMemory)) }
{
    if error.kind() == ErrorKind::OutOfMemory {
        Err(AllocError)
    } else {
        Ok(None)
    }
}

/// What `clap` finds in the words; `None` where it finds a fault.
pub fn parse(alloc: Global, words: &[Text]) -> Result<Option<ArgMatches<'_>>, AllocError>
    ensures { IfOk result (λ m. option_map matches_in m ≡ given_in words.entry.now) }
{
    let command = lid_command(alloc)?;
    match command.try_get_matches_from(words) {
        Ok(matches) => Ok(Some(matches)),
        Err(error) => without_matches(&error),
    }
}

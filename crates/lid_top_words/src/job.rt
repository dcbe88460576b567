//! The job that the words of a command line ask for.

ghost use Rattle.std.specs.Prelude.{◌≡◌, true, IfOk, IfSome};
ghost use Rattle.std.specs.List.{list_all};
ghost use Rattle.lid_top_words.specs.Reading.{matches_in, option_names};
ghost use Rattle.lid_top_words.specs.Jobs.{IsJobInRange, option_fits, form_shown, job_made, job_formed, job_given, job_of};

use crate::commands::{
    check_job, clock_job, emit_job, free_job, gen_job, place_job, rate_job, size_job, slack_job,
    strict_job, unwave_job, verify_job, walk_job, wave_job,
};
use crate::form::{form_of, has_form};
use crate::reader::parse;
use crate::table::{Command, Form};
use clap::ArgMatches;
use lid_base::{Name, Text};
use std::alloc::{AllocError, Global};

/// What the words ask for.
#[derive(Drop)]
pub enum Job {
    /// `check NET`: whether a netlist is accepted, and its nodes and channels.
    Check {
        /// The name of the file with the netlist.
        net: Text,
        /// The name of the model that is to be the root, as for `strict`.
        root: Option<Name>,
    },
    /// `clock NET VEC`: the clocked run of the system of a netlist for rows of input bits.
    Clock {
        /// The name of the file with the netlist.
        net: Text,
        /// The name of the file with the rows.
        vec: Text,
        /// The name of the file with the stations, as for `rate`.
        stations: Option<Text>,
        /// The name of the file with the stalls, where the environment stalls.
        stalls: Option<Text>,
        /// The number of workers, 1 to 64; 1 where stalls are given.
        workers: u64,
        /// The number of cycles of the trace, 1 to 1,048,576, where one is asked for.
        trace: Option<u64>,
        /// The name of the model that is to be the root, as for `strict`.
        root: Option<Name>,
    },
    /// `emit NET`: the wrapped design as a netlist.
    Emit {
        /// The name of the file with the netlist.
        net: Text,
        /// The name of the file with the stations, as for `rate`.
        stations: Option<Text>,
        /// The name of the model that is to be the root, as for `strict`.
        root: Option<Name>,
    },
    /// `free NET VEC`: the outputs of the wrapped design, whose actors threads turn at shared stations.
    Free {
        /// The name of the file with the netlist.
        net: Text,
        /// The name of the file with the rows.
        vec: Text,
        /// The name of the file with the stations, as for `rate`.
        stations: Option<Text>,
        /// The number of workers, 1 to 64.
        workers: u64,
        /// The number of rounds of each worker, at most 1,000,000.
        rounds: u64,
        /// Whether it is told how the turns of the workers ended.
        tally: bool,
        /// The name of the model that is to be the root, as for `strict`.
        root: Option<Name>,
    },
    /// `gen SEED --shells M`: a netlist made from a seed, and with `--run N` what its clocked run shows.
    Gen {
        /// The seed.
        seed: u64,
        /// How many shells the netlist is to have, at most 4,294,967,295.
        shells: u64,
        /// The number of rows of the run, 1 to 1,000,000, where one is asked for.
        run: Option<u64>,
    },
    /// `place NET --wires FILE --reach L`: the relay stations that wires of such lengths need.
    Place {
        /// The name of the file with the netlist.
        net: Text,
        /// The name of the file with the wires.
        wires: Text,
        /// How far a signal comes in one clock cycle, at least 1, in the unit of the lengths.
        reach: u64,
        /// The name of the model that is to be the root, as for `strict`.
        root: Option<Name>,
    },
    /// `rate NET`: a certificate of the throughput.
    Rate {
        /// The name of the file with the netlist.
        net: Text,
        /// The name of the file with the stations; without it no channel has a relay station.
        stations: Option<Text>,
        /// The name of the model that is to be the root, as for `strict`.
        root: Option<Name>,
    },
    /// `size NET`: the least capacities of stations that keep the throughput.
    Size {
        /// The name of the file with the netlist.
        net: Text,
        /// The name of the file with the stations, as for `rate`; their capacities are not looked at.
        stations: Option<Text>,
        /// The name of the model that is to be the root, as for `strict`.
        root: Option<Name>,
    },
    /// `slack NET`: how many further relay stations each channel takes before the throughput falls.
    Slack {
        /// The name of the file with the netlist.
        net: Text,
        /// The name of the file with the stations, as for `rate`.
        stations: Option<Text>,
        /// The name of the model that is to be the root, as for `strict`.
        root: Option<Name>,
    },
    /// `strict NET VEC`: the strict outputs of a netlist for rows of input bits.
    Strict {
        /// The name of the file with the netlist.
        net: Text,
        /// The name of the file with the rows.
        vec: Text,
        /// The name of the model that is to be the root; none stands for the first model. With
        /// `--root=` it is the empty name.
        root: Option<Name>,
    },
    /// `unwave FILE`: the trace that a value change dump shows.
    Unwave {
        /// The name of the file with the dump.
        file: Text,
    },
    /// `verify NET CERT`: whether a certificate shows the throughput.
    Verify {
        /// The name of the file with the netlist.
        net: Text,
        /// The name of the file with the certificate.
        cert: Text,
        /// The name of the file with the stations, as for `rate`.
        stations: Option<Text>,
        /// The name of the model that is to be the root, as for `strict`.
        root: Option<Name>,
    },
    /// `walk NET VEC --schedule FILE`: what the actors answer, step by step, along a schedule.
    Walk {
        /// The name of the file with the netlist.
        net: Text,
        /// The name of the file with the rows.
        vec: Text,
        /// The name of the file with the schedule.
        schedule: Text,
        /// The name of the file with the stations, as for `rate`.
        stations: Option<Text>,
        /// The name of the model that is to be the root, as for `strict`.
        root: Option<Name>,
    },
    /// `wave NET VEC --trace K`: the trace of the clocked run as a value change dump.
    Wave {
        /// The name of the file with the netlist.
        net: Text,
        /// The name of the file with the rows.
        vec: Text,
        /// The name of the file with the stations, as for `rate`.
        stations: Option<Text>,
        /// The number of cycles of the trace, 1 to 1,048,576.
        trace: u64,
        /// The name of the model that is to be the root, as for `strict`.
        root: Option<Name>,
    },
}

/// The job of a command whose form the words have.
#[tactic(auto, unfolding(crate::specs::Jobs::job_made))]
fn make_job(
    alloc: Global,
    command: Command,
    given: &ArgMatches<'_>,
) -> Result<Option<Job>, AllocError>
    requires { list_all (option_fits (matches_in given.now)) option_names ≡ true }
    ensures made { IfOk result (λ job. job ≡ job_made command (matches_in given.now)) }
    ensures sound { IfOk result (λ job. IfSome job IsJobInRange) }
{
    match command {
        Command::Check => check_job(alloc, given),
        Command::Clock => clock_job(alloc, given),
        Command::Emit => emit_job(alloc, given),
        Command::Free => free_job(alloc, given),
        Command::Gen => Ok(gen_job(given)),
        Command::Place => place_job(alloc, given),
        Command::Rate => rate_job(alloc, given),
        Command::Size => size_job(alloc, given),
        Command::Slack => slack_job(alloc, given),
        Command::Strict => strict_job(alloc, given),
        Command::Unwave => unwave_job(alloc, given),
        Command::Verify => verify_job(alloc, given),
        Command::Walk => walk_job(alloc, given),
        Command::Wave => wave_job(alloc, given),
    }
}

/// The job of a form, where the words have it.
#[tactic(auto, unfolding(crate::specs::Jobs::job_formed))]
fn formed_job(alloc: Global, form: Form, given: &ArgMatches<'_>) -> Result<Option<Job>, AllocError>
    ensures formed { IfOk result (λ job. job ≡ job_formed (matches_in given.now) (form_shown form.entry)) }
    ensures sound { IfOk result (λ job. IfSome job IsJobInRange) }
{
    let (command, ..) = form;
    if has_form(form, given) {
        make_job(alloc, command, given)
    } else {
        Ok(None)
    }
}

/// The job that stands in what `clap` found.
#[tactic(auto, unfolding(crate::specs::Jobs::job_given))]
fn given_job(alloc: Global, given: &ArgMatches<'_>) -> Result<Option<Job>, AllocError>
    ensures given { IfOk result (λ job. job ≡ job_given (matches_in given.now)) }
    ensures sound { IfOk result (λ job. IfSome job IsJobInRange) }
{
    match form_of(given) {
        Some(form) => formed_job(alloc, form, given),
        None => Ok(None),
    }
}

/// The job that the words after the program's name ask for; `None` where they are no job. The numbers of
/// a job are in their ranges.
///
/// # Errors
///
/// Where there is no memory.
#[tactic(auto, unfolding(crate::specs::Jobs::job_of))]
pub fn read_words(alloc: Global, words: &[Text]) -> Result<Option<Job>, AllocError>
    ensures asked { IfOk result (λ job. job ≡ job_of words.now) }
    ensures sound { IfOk result (λ job. IfSome job IsJobInRange) }
{
    match parse(alloc, words)? {
        Some(given) => given_job(alloc, &given),
        None => Ok(None),
    }
}

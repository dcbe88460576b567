//! The jobs of the commands, from the words.

ghost use Rattle.std.specs.Prelude.{◌≡◌, IfOk};
ghost use Rattle.lid_top_words.specs.Reading.{matches_in};
ghost use Rattle.lid_top_words.specs.Jobs.{file_at, root_in, seed_in, number_if, number_or, check_job, gen_job, place_job, rate_job, strict_job, unwave_job, verify_job, walk_job, wave_job, clock_job, free_job, emit_job, size_job, slack_job};

use crate::given::{file_at, file_text, is_tallied, root_of, text_if_given, text_of, value_of};
use crate::job::Job;
use crate::table::{REACH, ROUNDS, RUN, SCHEDULE, SHELLS, STALLS, STATIONS, TRACE, WIRES, WORKERS};
use clap::ArgMatches;
use lid_base::{Name, Text, number};
use std::alloc::{AllocError, Global};

/// The file with the netlist and the name of the root, which each job has.
fn netlist_of(alloc: Global, given: &ArgMatches<'_>) -> Result<(Text, Option<Name>), AllocError>
    ensures net { IfOk result (λ netlist. netlist.0 ≡ file_at 0 (matches_in given.now)) }
    ensures root { IfOk result (λ netlist. netlist.1 ≡ root_in (matches_in given.now)) }
{
    let net = file_text(alloc, given, 0)?;
    let root = root_of(alloc, given)?;
    Ok((net, root))
}

/// The job of `check`.
pub fn check_job(alloc: Global, given: &ArgMatches<'_>) -> Result<Option<Job>, AllocError>
    ensures { IfOk result (λ job. job ≡ check_job (matches_in given.now)) }
{
    let (net, root) = netlist_of(alloc, given)?;
    Ok(Some(Job::Check { net, root }))
}

/// The number of an option, where it stands in the words.
#[tactic(auto, unfolding(crate::specs::Jobs::number_if))]
fn number_if(given: &ArgMatches<'_>, option: &str) -> Option<u64>
    ensures { result ≡ number_if option.now (matches_in given.now) }
{
    match value_of(given, option) {
        Some(text) => number(text.as_bytes()),
        None => None,
    }
}

/// The number of an option, and another one where it does not stand in the words.
#[tactic(auto, unfolding(crate::specs::Jobs::number_or))]
fn number_or(given: &ArgMatches<'_>, option: &str, other: u64) -> u64
    ensures { result ≡ number_or other option.now (matches_in given.now) }
{
    number_if(given, option).unwrap_or(other)
}

/// The job of `clock`.
pub fn clock_job(alloc: Global, given: &ArgMatches<'_>) -> Result<Option<Job>, AllocError>
    ensures { IfOk result (λ job. job ≡ clock_job (matches_in given.now)) }
{
    let (net, root) = netlist_of(alloc, given)?;
    let vec = file_text(alloc, given, 1)?;
    let stations = text_if_given(alloc, given, STATIONS)?;
    let stalls = text_if_given(alloc, given, STALLS)?;
    Ok(Some(Job::Clock {
        net,
        vec,
        stations,
        stalls,
        workers: number_or(given, WORKERS, 1),
        trace: number_if(given, TRACE),
        root,
    }))
}

/// The job of `emit`.
pub fn emit_job(alloc: Global, given: &ArgMatches<'_>) -> Result<Option<Job>, AllocError>
    ensures { IfOk result (λ job. job ≡ emit_job (matches_in given.now)) }
{
    let (net, root) = netlist_of(alloc, given)?;
    let stations = text_if_given(alloc, given, STATIONS)?;
    Ok(Some(Job::Emit {
        net,
        stations,
        root,
    }))
}

/// The job of `free`.
pub fn free_job(alloc: Global, given: &ArgMatches<'_>) -> Result<Option<Job>, AllocError>
    ensures { IfOk result (λ job. job ≡ free_job (matches_in given.now)) }
{
    let (net, root) = netlist_of(alloc, given)?;
    let vec = file_text(alloc, given, 1)?;
    let stations = text_if_given(alloc, given, STATIONS)?;
    Ok(Some(Job::Free {
        net,
        vec,
        stations,
        workers: number_or(given, WORKERS, 1),
        rounds: number_or(given, ROUNDS, 1_000),
        tally: is_tallied(given),
        root,
    }))
}

/// The seed that stands in the first place.
#[tactic(auto, unfolding(crate::specs::Jobs::seed_in))]
fn seed_of(given: &ArgMatches<'_>) -> u64
    ensures { result ≡ seed_in (matches_in given.now) }
{
    number(file_at(given, 0).as_bytes()).unwrap_or(0)
}

/// The job of `gen`.
pub fn gen_job(given: &ArgMatches<'_>) -> Option<Job>
    ensures { result ≡ gen_job (matches_in given.now) }
{
    Some(Job::Gen {
        seed: seed_of(given),
        shells: number_or(given, SHELLS, 0),
        run: number_if(given, RUN),
    })
}

/// The job of `place`.
pub fn place_job(alloc: Global, given: &ArgMatches<'_>) -> Result<Option<Job>, AllocError>
    ensures { IfOk result (λ job. job ≡ place_job (matches_in given.now)) }
{
    let (net, root) = netlist_of(alloc, given)?;
    Ok(Some(Job::Place {
        net,
        wires: text_of(alloc, given, WIRES)?,
        reach: number_or(given, REACH, 1),
        root,
    }))
}

/// The job of `rate`.
pub fn rate_job(alloc: Global, given: &ArgMatches<'_>) -> Result<Option<Job>, AllocError>
    ensures { IfOk result (λ job. job ≡ rate_job (matches_in given.now)) }
{
    let (net, root) = netlist_of(alloc, given)?;
    let stations = text_if_given(alloc, given, STATIONS)?;
    Ok(Some(Job::Rate {
        net,
        stations,
        root,
    }))
}

/// The job of `size`.
pub fn size_job(alloc: Global, given: &ArgMatches<'_>) -> Result<Option<Job>, AllocError>
    ensures { IfOk result (λ job. job ≡ size_job (matches_in given.now)) }
{
    let (net, root) = netlist_of(alloc, given)?;
    let stations = text_if_given(alloc, given, STATIONS)?;
    Ok(Some(Job::Size {
        net,
        stations,
        root,
    }))
}

/// The job of `slack`.
pub fn slack_job(alloc: Global, given: &ArgMatches<'_>) -> Result<Option<Job>, AllocError>
    ensures { IfOk result (λ job. job ≡ slack_job (matches_in given.now)) }
{
    let (net, root) = netlist_of(alloc, given)?;
    let stations = text_if_given(alloc, given, STATIONS)?;
    Ok(Some(Job::Slack {
        net,
        stations,
        root,
    }))
}

/// The job of `strict`.
pub fn strict_job(alloc: Global, given: &ArgMatches<'_>) -> Result<Option<Job>, AllocError>
    ensures { IfOk result (λ job. job ≡ strict_job (matches_in given.now)) }
{
    let (net, root) = netlist_of(alloc, given)?;
    let vec = file_text(alloc, given, 1)?;
    Ok(Some(Job::Strict { net, vec, root }))
}

/// The job of `verify`.
pub fn verify_job(alloc: Global, given: &ArgMatches<'_>) -> Result<Option<Job>, AllocError>
    ensures { IfOk result (λ job. job ≡ verify_job (matches_in given.now)) }
{
    let (net, root) = netlist_of(alloc, given)?;
    let cert = file_text(alloc, given, 1)?;
    let stations = text_if_given(alloc, given, STATIONS)?;
    Ok(Some(Job::Verify {
        net,
        cert,
        stations,
        root,
    }))
}

/// The job of `unwave`.
pub fn unwave_job(alloc: Global, given: &ArgMatches<'_>) -> Result<Option<Job>, AllocError>
    ensures { IfOk result (λ job. job ≡ unwave_job (matches_in given.now)) }
{
    let file = file_text(alloc, given, 0)?;
    Ok(Some(Job::Unwave { file }))
}

/// The job of `walk`.
pub fn walk_job(alloc: Global, given: &ArgMatches<'_>) -> Result<Option<Job>, AllocError>
    ensures { IfOk result (λ job. job ≡ walk_job (matches_in given.now)) }
{
    let (net, root) = netlist_of(alloc, given)?;
    let vec = file_text(alloc, given, 1)?;
    let stations = text_if_given(alloc, given, STATIONS)?;
    Ok(Some(Job::Walk {
        net,
        vec,
        schedule: text_of(alloc, given, SCHEDULE)?,
        stations,
        root,
    }))
}

/// The job of `wave`.
pub fn wave_job(alloc: Global, given: &ArgMatches<'_>) -> Result<Option<Job>, AllocError>
    ensures { IfOk result (λ job. job ≡ wave_job (matches_in given.now)) }
{
    let (net, root) = netlist_of(alloc, given)?;
    let vec = file_text(alloc, given, 1)?;
    let stations = text_if_given(alloc, given, STATIONS)?;
    Ok(Some(Job::Wave {
        net,
        vec,
        stations,
        trace: number_or(given, TRACE, 1),
        root,
    }))
}

ghost use Rattle.std.specs.Prelude.{◌≡◌, ◌⊎◌, length, map, IfOk, IfErr};
ghost use Rattle.lid_design.specs.Loops.{pearls};
ghost use Rattle.lid_design.specs.WellFormed.{IsWellFormed};
ghost use Rattle.lid_check_rules.specs.declared.fault.CheckFault.TheVariants.{Memory};
ghost use Rattle.lid_check_digraph.specs.Graphs.{IsOrder};
ghost use Rattle.lid_check_elab.specs.Elaborations.{driver_reads};
ghost use Rattle.lid_check.specs.Acceptance.{IsAccepted, IsRefusal};
ghost use Rattle.lid_check.specs.Facts.{AreCounts, AreFindings, AreDesignPorts, AreFacts};

use crate::network::{Network, number_outputs};
use lid_base::{Items, Name};
use lid_check_drivers::{Judged, judge};
use lid_check_elab::{Elaboration, elaborate};
use lid_check_hierarchy::Survey;
use lid_check_loops::{Verdict, find_flaw, find_inputs, tell_flaw};
use lid_check_models::{check_models, count_latches};
use lid_check_parts::{PearlPart, find_parts};
use lid_check_rules::CheckFault;
use lid_design::Design;
use std::alloc::{AllocError, Global};

/// Counts of a design, over all paths.
#[derive(Clone, Copy)]
pub struct Counts {
    pub pearls: u32,
    pub latches: u64,
    pub defaulted: u64,
}

/// What is kept of an accepted design.
#[derive(Drop)]
pub struct Facts {
    /// The data inputs of the root, in order.
    pub inputs: Items<Name>,
    pub counts: Counts,
    /// The columns of each pearl.
    pub parts: Items<PearlPart>,
    pub network: Network,
}

/// The inputs and outputs of the root, and the columns of each pearl.
#[derive(Drop)]
struct Ports {
    inputs: Items<Name>,
    /// The numbers of the columns of the outputs.
    outputs: Items<u32>,
    parts: Items<PearlPart>,
}

/// What is found of the columns of an accepted design.
#[derive(Drop)]
struct Findings {
    counts: Counts,
    ports: Ports,
    /// The numbers of the columns, each after those that it reads in the same row.
    order: Items<u32>,
}

/// Accepts a design with its root, or refuses it by one of the conditions but `NoRoot`.
///
/// # Errors
/// The first condition that applies is told, at its first place. `Memory` may come at any design.
pub fn accept(alloc: Global, design: &Design) -> Result<Facts, CheckFault>
    requires { IsWellFormed design.now }
    ensures ok { IfOk result (λ facts. AreFacts design.now facts) }
    ensures err { IfErr result (λ fault. (fault ≡ Memory) ⊎ IsRefusal design.now fault) }
{
    let survey = check_models(alloc, design)?;
    let judged = judge(survey);
    check_columns(alloc, judged)
}

/// Judges the columns of a design that meets the conditions on models.
///
/// # Errors
/// The first condition that applies is told, at its first place. `Memory` may come at any design.
fn check_columns(alloc: Global, judged: Judged<'_>) -> Result<Facts, CheckFault>
    ensures ok { IfOk result (λ facts. AreFacts judged.entry facts) }
    ensures err { IfErr result (λ fault. (fault ≡ Memory) ⊎ IsRefusal judged.entry fault) }
{
    let columns = elaborate(alloc, judged)?;
    match judge_columns(alloc, &columns) {
        Ok(findings) => Ok(facts_of(columns, findings)),
        Err(fault) => Err(fault),
    }
}

/// Judges some columns.
///
/// # Errors
/// The first condition that applies is told, at its first place. `Memory` may come at any design.
fn judge_columns(alloc: Global, columns: &Elaboration<'_>) -> Result<Findings, CheckFault>
    ensures ok { IfOk result (AreFindings columns.now.design columns.now.drivers) }
    ensures err { IfErr result (λ fault. (fault ≡ Memory) ⊎ IsRefusal columns.now.design fault) }
{
    let _ = columns.judged().design();
    match find_flaw(alloc, columns)? {
        Verdict::Sound(order) => Ok(findings_of(alloc, columns, order)?),
        Verdict::Flawed(flaw) => Err(tell_flaw(alloc, columns.judged(), flaw)?),
    }
}

/// What is found of the columns of an accepted design, with an order of them.
fn findings_of(
    alloc: Global,
    columns: &Elaboration<'_>,
    order: Items<u32>,
) -> Result<Findings, AllocError>
    requires accepted { IsAccepted columns.now.design }
    requires order { IsOrder (map driver_reads columns.now.drivers) order }
    ensures { IfOk result (AreFindings columns.now.design columns.now.drivers) }
{
    let ports = find_ports(alloc, columns)?;
    let counts = find_counts(alloc, columns)?;
    Ok(Findings {
        counts,
        ports,
        order,
    })
}

/// The inputs and outputs of the root of an accepted design, and the columns of each pearl.
fn find_ports(alloc: Global, columns: &Elaboration<'_>) -> Result<Ports, AllocError>
    requires { IsAccepted columns.now.design }
    ensures { IfOk result (AreDesignPorts columns.now.design columns.now.drivers) }
{
    let survey = columns.judged().survey();
    let inputs = find_inputs(alloc, survey, survey.design().root)?;
    let outputs = number_outputs(alloc, columns)?;
    let parts = find_parts(alloc, columns)?;
    Ok(Ports {
        inputs,
        outputs,
        parts,
    })
}

/// The counts of an accepted design.
fn find_counts(alloc: Global, columns: &Elaboration<'_>) -> Result<Counts, AllocError>
    requires { IsAccepted columns.now.design }
    ensures { IfOk result (AreCounts columns.now.design) }
{
    let survey = columns.judged().survey();
    let latches = count_latches(alloc, survey)?;
    Ok(Counts {
        pearls: count_pearls(survey),
        latches: latches.all,
        defaulted: latches.defaulted,
    })
}

/// What is kept of an accepted design, from what was found of its columns.
fn facts_of(columns: Elaboration<'_>, findings: Findings) -> Facts
    requires { AreFindings columns.design columns.drivers findings }
    ensures { AreFacts columns.entry.design result }
{
    let _ = columns.judged().design();
    let Findings {
        counts,
        ports,
        order,
    } = findings;
    let Ports {
        inputs,
        outputs,
        parts,
    } = ports;
    let network = Network {
        columns: columns.into_columns(),
        order,
        outputs,
    };
    Facts {
        inputs,
        counts,
        parts,
        network,
    }
}

/// How many pearls there are: the instances of the root, or one where it has none.
fn count_pearls(survey: &Survey<'_>) -> u32
    ensures { result ≡ length (pearls survey.now) }
{
    let design = survey.design();
    let insts = design.models.as_slice()[design.root as usize].insts.len();
    if insts == 0 { 1 } else { insts as u32 }
}

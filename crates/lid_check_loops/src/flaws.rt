//! Why the columns of a design are refused, by numbers, and how it is told by names.

ghost use Rattle.std.specs.Prelude.{◌≡◌, Some, map, slice_get, IfOk};
ghost use Rattle.lid_design.specs.Loops.{HasNoLoop};
ghost use Rattle.lid_check_digraph.specs.Graphs.{IsOrder};
ghost use Rattle.lid_check_elab.specs.Elaborations.{driver_reads};
ghost use Rattle.lid_check_loops.specs.Dependence.{IsFirstOnLoop, TellsLoop, TellsDependence};
ghost use Rattle.lid_design.specs.Models.{data_inputs_of};
ghost use Rattle.lid_check_loops.specs.Flaws.{IsFirstDependence, IsFirstFlaw, IsVerdict, TellsFlaw};

use crate::outputs::{Lead, find_dependence};
use crate::pearls::find_inputs;
use lid_base::{Items, Name, copy_name};
use lid_check_digraph::{Digraph, Found, ReadLists, find_order};
use lid_check_drivers::Judged;
use lid_check_elab::{Elaboration, find_column, find_reads};
use lid_check_hierarchy::Survey;
use lid_check_rules::CheckFault;
use std::alloc::{AllocError, Global};

/// Why the columns of a design are refused.
#[derive(Clone, Copy)]
pub enum Flaw {
    /// The first column that lies on a closed walk, by its number.
    Loop(u32),
    /// The first output of a pearl that depends on an input of it.
    Dependence(Lead),
}

/// Whether the columns of a design have a flaw.
#[derive(Drop)]
pub enum Verdict {
    /// They have none, and this is an order of them: each stands after all that it reads in the same
    /// row.
    Sound(Items<u32>),
    /// This is the first.
    Flawed(Flaw),
}

/// The first flaw of the columns of a design, where there is one, and else an order of them.
///
/// # Errors
/// Where there is no memory.
pub fn find_flaw(alloc: Global, columns: &Elaboration<'_>) -> Result<Verdict, AllocError>
    ensures { IfOk result (IsVerdict columns.now.design columns.now.drivers) }
{
    let reads = find_reads(alloc, columns.drivers())?;
    find_among(alloc, columns, &reads)
}

/// The first flaw of some columns, by what each reads in the same row.
fn find_among(
    alloc: Global,
    columns: &Elaboration<'_>,
    reads: &ReadLists,
) -> Result<Verdict, AllocError>
    requires { reads.now ≡ map driver_reads columns.now.drivers }
    ensures { IfOk result (IsVerdict columns.now.design columns.now.drivers) }
{
    let _ = columns.judged();
    let graph = Digraph { reads };
    match find_order(alloc, &graph)? {
        Found::Order(order) => find_in_order(alloc, columns, &graph, order),
        Found::Loop(first) => Ok(Verdict::Flawed(Flaw::Loop(first))),
    }
}

/// The first flaw of some columns that have an order.
fn find_in_order(
    alloc: Global,
    columns: &Elaboration<'_>,
    graph: &Digraph<'_>,
    order: Items<u32>,
) -> Result<Verdict, AllocError>
    requires reads { graph.now.reads.now ≡ map driver_reads columns.now.drivers }
    requires order { IsOrder graph.now.reads.now order }
    requires loops { HasNoLoop columns.now.design }
    ensures { IfOk result (IsVerdict columns.now.design columns.now.drivers) }
{
    match find_dependence(alloc, columns, graph, order.as_slice())? {
        Some(lead) => Ok(Verdict::Flawed(Flaw::Dependence(lead))),
        None => Ok(Verdict::Sound(order)),
    }
}

/// Tells a flaw by names.
///
/// # Errors
/// Where there is no memory.
pub fn tell_flaw(alloc: Global, judged: &Judged<'_>, flaw: Flaw) -> Result<CheckFault, AllocError>
    requires { IsFirstFlaw judged.now flaw }
    ensures { IfOk result (TellsFlaw judged.now) }
{
    match flaw {
        Flaw::Loop(first) => tell_loop(alloc, judged, first),
        Flaw::Dependence(lead) => tell_dependence(alloc, judged.survey(), lead),
    }
}

/// Tells the first column on a closed walk by its path and its name.
fn tell_loop(alloc: Global, judged: &Judged<'_>, first: u32) -> Result<CheckFault, AllocError>
    requires { IsFirstOnLoop judged.now first }
    ensures { IfOk result (TellsLoop judged.now) }
{
    let (path, name) = find_column(alloc, judged, first)?;
    Ok(CheckFault::CombLoop { path, name })
}

/// Tells an output that depends on an input by their names and that of their model.
fn tell_dependence(alloc: Global, survey: &Survey<'_>, lead: Lead) -> Result<CheckFault, AllocError>
    requires { IsFirstDependence survey.now lead }
    ensures { IfOk result (TellsDependence survey.now) }
{
    let body = &survey.design().models.as_slice()[lead.model as usize];
    let input = copy_input(alloc, survey, lead)?;
    let model = copy_name(alloc, body.name.as_slice())?;
    let output = copy_name(alloc, body.outputs.as_slice()[lead.output].as_slice())?;
    Ok(CheckFault::OutputFromInput {
        model,
        output,
        input,
    })
}

/// The name of the data input that leads to an output.
fn copy_input(alloc: Global, survey: &Survey<'_>, lead: Lead) -> Result<Name, AllocError>
    requires { IsFirstDependence survey.now lead }
    ensures { IfOk result (λ name. slice_get (data_inputs_of survey.now lead.model) lead.input ≡ Some name) }
{
    let inputs = find_inputs(alloc, survey, lead.model)?;
    copy_name(alloc, inputs.as_slice()[lead.input].as_slice())
}

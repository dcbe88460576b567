//! Outputs of pearls that depend on their inputs in one row.

ghost use Rattle.std.specs.Prelude.{◌≡◌, ◌≤◌, ℕ, true, List, length, map, IfOk};
ghost use Rattle.std.specs.List.{AllByRecursion};
ghost use Rattle.std.specs.Option.{MatchOption};
ghost use Rattle.lid_base.specs.Lists.{Among};
ghost use Rattle.lid_check_digraph.specs.Graphs.{IsOrder};
ghost use Rattle.lid_check_elab.specs.Elaborations.{driver_reads};
ghost use Rattle.lid_design.specs.Models.{data_inputs_of};
ghost use Rattle.lid_check_loops.specs.Pearls.{is_marked, IsFittingPearl, AreMarks, IsFirstMarked, AreUnmarked, LeadsInPearl, AreReachedIn, AreCutOff, CutsOff, count_cut, IsFirstInput};
ghost use Rattle.lid_check_loops.specs.Flaws.{FindsLead, FindsDependence};

use crate::pearls::{
    Pearl, find_inputs, find_starts, is_marked, list_pearls, mark_first, number_of,
};
use lid_base::Name;
use lid_check_digraph::{Digraph, find_reached, find_reaching};
use lid_check_elab::Elaboration;
use lid_check_hierarchy::Survey;
use std::alloc::{AllocError, Global};

/// An output of a pearl that depends on a data input of it, by their places and the number of the
/// pearl's model.
#[derive(Clone, Copy)]
pub struct Lead {
    /// The number of the model.
    pub model: u32,
    /// The place of the output among the outputs of the model.
    pub output: usize,
    /// The place of the input among the data inputs of the model.
    pub input: usize,
}

/// The place of the first of some nets of a pearl whose column is marked.
fn first_marked(survey: &Survey<'_>, pearl: Pearl, marks: &[bool], names: &[Name]) -> Option<usize>
    requires fits { IsFittingPearl survey.now (length marks.now) pearl }
    requires few { length marks.now ≤ 1048576 }
    ensures { MatchOption result (AreUnmarked survey.now pearl marks.now names.now) (IsFirstMarked survey.now pearl marks.now names.now) }
{
    for i in 0..names.len() {
        if is_marked(survey, pearl, marks, names[i].as_slice()) {
            return Some(i);
        }
    }
    None
}

/// The place among the data inputs of a pearl of the first one that leads to an output of it.
fn find_input(
    alloc: Global,
    survey: &Survey<'_>,
    pearl: Pearl,
    graph: &Digraph<'_>,
    cut: &[bool],
    output: &[u8],
) -> Result<usize, AllocError>
    requires cut { length cut.now ≡ length graph.now.reads.now }
    requires few { length graph.now.reads.now ≤ 1048576 }
    requires fits { IsFittingPearl survey.now (length graph.now.reads.now) pearl }
    requires some { (input : List ℕ) × Among input (data_inputs_of survey.now pearl.model)
        × LeadsInPearl survey.now graph.now.reads.now cut.now pearl input output.now }
    ensures { IfOk result (IsFirstInput survey.now graph.now.reads.now cut.now pearl output.now) }
{
    let Some(end) = number_of(survey, pearl, output) else {
        unreachable!();
    };
    let reaching = find_reaching(alloc, graph, cut, end)?;
    first_input(alloc, survey, pearl, reaching.as_slice())
}

/// The place of the first data input of a pearl whose column is marked.
fn first_input(
    alloc: Global,
    survey: &Survey<'_>,
    pearl: Pearl,
    marks: &[bool],
) -> Result<usize, AllocError>
    requires fits { IsFittingPearl survey.now (length marks.now) pearl }
    requires few { length marks.now ≤ 1048576 }
    requires some { (input : List ℕ) × Among input (data_inputs_of survey.now pearl.model) × (is_marked survey.now pearl marks.now input ≡ true) }
    ensures { IfOk result (IsFirstMarked survey.now pearl marks.now (data_inputs_of survey.now pearl.model)) }
{
    let inputs = find_inputs(alloc, survey, pearl.model)?;
    match first_marked(survey, pearl, marks, inputs.as_slice()) {
        Some(i) => Ok(i),
        None => unreachable!(),
    }
}

/// The first output of a pearl to which a data input leads, with the first such input.
fn find_lead(
    alloc: Global,
    survey: &Survey<'_>,
    pearl: Pearl,
    graph: &Digraph<'_>,
    cut: &[bool],
    reached: &[bool],
) -> Result<Option<Lead>, AllocError>
    requires sizes { AreMarks graph.now.reads.now cut.now reached.now }
    requires fits { IsFittingPearl survey.now (length graph.now.reads.now) pearl }
    requires marks { AreReachedIn survey.now graph.now.reads.now cut.now reached.now pearl }
    ensures { IfOk result (FindsLead survey.now graph.now.reads.now cut.now pearl) }
{
    let body = &survey.design().models.as_slice()[pearl.model as usize];
    let outputs = body.outputs.as_slice();
    match first_marked(survey, pearl, reached, outputs) {
        None => Ok(None),
        Some(output) => {
            let name = outputs[output].as_slice();
            let input = find_input(alloc, survey, pearl, graph, cut, name)?;
            let model = pearl.model;
            Ok(Some(Lead {
                model,
                output,
                input,
            }))
        }
    }
}

/// The first output that depends on a data input of its pearl, with the first such input, by the
/// pearls in order.
fn find_in_pearls(
    alloc: Global,
    survey: &Survey<'_>,
    pearls: &[Pearl],
    graph: &Digraph<'_>,
    cut: &[bool],
    reached: &[bool],
) -> Result<Option<Lead>, AllocError>
    requires sizes { AreMarks graph.now.reads.now cut.now reached.now }
    requires apart { AreCutOff survey.now graph.now.reads.now cut.now reached.now pearls.now }
    ensures { IfOk result (FindsDependence survey.now) }
{
    for p in 0..pearls.len() {
        match find_lead(alloc, survey, pearls[p], graph, cut, reached)? {
            Some(lead) => return Ok(Some(lead)),
            None => (),
        }
    }
    Ok(None)
}

/// The number of the root's columns where it has instances, and else 0.
fn count_cut(survey: &Survey<'_>) -> usize
    ensures { result ≡ count_cut survey.now }
{
    let design = survey.design();
    let root = design.root;
    if design.models.as_slice()[root as usize].insts.is_empty() {
        return 0;
    }
    survey.count_nets(root)
}

/// The first output of a pearl that depends on a data input of it, with the first such input. The
/// columns are given with an order in which each stands after all that it reads in the same row.
///
/// # Errors
/// Where there is no memory.
pub(crate) fn find_dependence(
    alloc: Global,
    columns: &Elaboration<'_>,
    graph: &Digraph<'_>,
    order: &[u32],
) -> Result<Option<Lead>, AllocError>
    requires reads { graph.now.reads.now ≡ map driver_reads columns.now.drivers }
    requires order { IsOrder graph.now.reads.now order.now }
    ensures { IfOk result (FindsDependence columns.now.design) }
{
    let survey = columns.judged().survey();
    let pearls = list_pearls(alloc, survey, columns.starts())?;
    let cut = mark_first(alloc, count_cut(survey), graph.reads.len())?;
    find_past(
        alloc,
        survey,
        pearls.as_slice(),
        graph,
        order,
        cut.as_slice(),
    )
}

/// The first output of a pearl that depends on a data input of it, by walks past the cut.
fn find_past(
    alloc: Global,
    survey: &Survey<'_>,
    pearls: &[Pearl],
    graph: &Digraph<'_>,
    order: &[u32],
    cut: &[bool],
) -> Result<Option<Lead>, AllocError>
    requires order { IsOrder graph.now.reads.now order.now }
    requires few { length graph.now.reads.now ≤ 1048576 }
    requires size { length cut.now ≡ length graph.now.reads.now }
    requires fit { AllByRecursion (IsFittingPearl survey.now (length graph.now.reads.now)) pearls.now }
    requires apart { CutsOff survey.now graph.now.reads.now cut.now pearls.now }
    ensures { IfOk result (FindsDependence survey.now) }
{
    let starts = find_starts(alloc, survey, pearls, graph.reads.len())?;
    let led = find_reached(alloc, graph, order, cut, starts.as_slice())?;
    find_in_pearls(alloc, survey, pearls, graph, cut, led.as_slice())
}

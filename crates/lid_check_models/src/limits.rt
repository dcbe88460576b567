ghost use Rattle.std.specs.Prelude.{◌≡◌, ◌<◌, ℕ, min, length, IfOk};
ghost use Rattle.lid_base.specs.declared.which.Which.TheVariants.{RootInsts};
ghost use Rattle.lid_design.specs.Models.{insts_of};
ghost use Rattle.lid_design.specs.Elaboration.{count_latches, count_defaulted};
ghost use Rattle.lid_check_rules.specs.Acceptance.{ModelsPass};
ghost use Rattle.lid_check_rules.specs.Conditions.{over, limits};
ghost use Rattle.lid_check_models.specs.Limits.{total_limit, wide_limits, deep_limits};
ghost use Rattle.lid_check_rules.specs.Told.{shown_of};

use crate::counts::{Measure, count_all};
use lid_base::Which;
use lid_check_hierarchy::Survey;
use lid_check_names::model_at;
use lid_check_rules::Told;
use std::alloc::{AllocError, Global};

/// The latches of a design, over all instances.
#[derive(Clone, Copy, Debug, PartialEq, Eq)]
pub struct Latches {
    /// All latches.
    pub all: u64,
    /// Those whose first bit was left open: they begin at 0.
    pub defaulted: u64,
}

/// Counts the latches of a design that is within the limits, over all instances.
pub fn count_latches(alloc: Global, survey: &Survey<'_>) -> Result<Latches, AllocError>
    requires { ModelsPass survey.now }
    ensures { IfOk result (λ n. (n.all ≡ count_latches survey.now) × (n.defaulted ≡ count_defaulted survey.now)) }
{
    let all = count_all(alloc, survey, Measure::Latches)?;
    let defaulted = count_all(alloc, survey, Measure::Defaulted)?;
    Ok(Latches { all, defaulted })
}

/// Tells of the first limit that a design exceeds: instances of the root, depth, cells, columns.
pub fn find_limit<'d>(alloc: Global, survey: &Survey<'d>) -> Result<Option<Told<'d>>, AllocError>
    ensures { IfOk result (λ told. shown_of told ≡ limits survey.now) }
{
    match find_root_insts(survey) {
        Some(told) => Ok(Some(told)),
        None => find_deep(alloc, survey),
    }
}

/// Tells of the first limit that a design exceeds of depth, cells and columns.
#[tactic(auto, unfolding(crate::specs::Limits::deep_limits), using(lid_check_rules::proofs::Faults::told_first))]
fn find_deep<'d>(alloc: Global, survey: &Survey<'d>) -> Result<Option<Told<'d>>, AllocError>
    ensures { IfOk result (λ told. shown_of told ≡ deep_limits survey.now) }
{
    match find_total(alloc, survey, Measure::Depth, Which::Depth, 64)? {
        Some(told) => Ok(Some(told)),
        None => find_wide(alloc, survey),
    }
}

/// Tells of the first limit that a design exceeds of cells and columns.
fn find_wide<'d>(alloc: Global, survey: &Survey<'d>) -> Result<Option<Told<'d>>, AllocError>
    ensures { IfOk result (λ told. shown_of told ≡ wide_limits survey.now) }
{
    match find_total(alloc, survey, Measure::Cells, Which::Cells, 262_144)? {
        Some(told) => Ok(Some(told)),
        None => find_total(alloc, survey, Measure::Nets, Which::Nets, 1_048_576),
    }
}

/// Tells of the instances of the root, where they are too many.
fn find_root_insts<'d>(survey: &Survey<'d>) -> Option<Told<'d>>
    ensures { shown_of result ≡ over 4096 RootInsts (length (insts_of survey.now survey.now.root)) }
{
    let count = match model_at(survey.design(), survey.design().root) {
        Some(model) => model.insts.len() as u64,
        None => 0,
    };
    tell_over(4096, Which::RootInsts, count.min(4_294_967_295))
}

/// Tells of what is counted over all instances, where it is too much.
#[tactic(auto, unfolding(crate::specs::Limits::total_limit))]
fn find_total<'d>(
    alloc: Global,
    survey: &Survey<'d>,
    what: Measure,
    which: Which,
    greatest: u64,
) -> Result<Option<Told<'d>>, AllocError>
    requires { greatest < 4294967295 }
    ensures { IfOk result (λ told. shown_of told ≡ total_limit greatest which what survey.now) }
{
    let count = count_all(alloc, survey, what)?;
    Ok(tell_over(greatest, which, count))
}

/// Tells of a count that is too much. The count may be cut at 4,294,967,295.
fn tell_over<'d>(greatest: u64, which: Which, count: u64) -> Option<Told<'d>>
    requires { greatest < 4294967295 }
    ensures { (n : ℕ) → count ≡ min n 4294967295 → shown_of result ≡ over greatest which n }
{
    if count > greatest {
        Some(Told::Limit { which, count })
    } else {
        None
    }
}

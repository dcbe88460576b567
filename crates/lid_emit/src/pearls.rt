//! The size of the pearls.

ghost use Rattle.std.specs.Prelude.{◌≡◌, ℕ, [], ◌∷◌, length, map, min, sum_by, slice_index_or, IfOk};
ghost use Rattle.std.specs.List.{range_with_len};
ghost use Rattle.lid_design.specs.Models.{insts_of};
ghost use Rattle.lid_check_models.specs.Counts.{count_of};
ghost use Rattle.lid_emit_meaning.specs.Sizes.{at_path, over_pearls, cells_size_in, AreModelCounts};

use lid_check_hierarchy::Survey;
use lid_check_models::{Measure, count_each, counts_are_sums};
use lid_check_names::model_at;
use std::alloc::{AllocError, Global};

/// The size of the latches and covers of all pearls, at most 18,446,744,073,709,551,615.
pub fn cells_of_pearls(alloc: Global, survey: &Survey<'_>) -> Result<u64, AllocError>
    ensures { IfOk result (λ n. n ≡ min (over_pearls survey.now (cells_size_in survey.now)) 18446744073709551615) }
{
    counts_are_sums();
    let latches = count_in_pearls(alloc, survey, Measure::Latches)?;
    let covers = count_in_pearls(alloc, survey, Measure::Covers)?;
    let inputs = count_in_pearls(alloc, survey, Measure::CoverInputs)?;
    let rows = count_in_pearls(alloc, survey, Measure::CoverRows)?;
    Ok(
        latches
            .saturating_add(covers)
            .saturating_add(inputs)
            .saturating_add(rows),
    )
}

/// What is counted in all pearls, at most 18,446,744,073,709,551,615.
fn count_in_pearls(alloc: Global, survey: &Survey<'_>, what: Measure) -> Result<u64, AllocError>
    ensures { IfOk result (λ n. n ≡ min (over_pearls survey.now (count_of what survey.now)) 18446744073709551615) }
{
    let counts = count_each(alloc, survey, what)?;
    Ok(sum_over_pearls(survey, counts.as_slice()))
}

/// The sum of the counts of the models of all pearls, at most 18,446,744,073,709,551,615.
fn sum_over_pearls(survey: &Survey<'_>, counts: &[u64]) -> u64
    ensures { (f : ℕ → ℕ) → AreModelCounts survey.now f counts.now → result ≡ min (over_pearls survey.now f) 18446744073709551615 }
{
    let insts = inst_count(survey);
    if insts == 0 {
        return count_at(counts, survey.design().root);
    }
    sum_over_insts(survey, counts, insts)
}

/// How many instances the root has.
fn inst_count(survey: &Survey<'_>) -> u32
    ensures { result ≡ length (insts_of survey.now survey.now.root) }
{
    let design = survey.design();
    match model_at(design, design.root) {
        Some(model) => model.insts.len() as u32,
        None => 0,
    }
}

/// The sum of the counts of the models of so many first instances of the root.
fn sum_over_insts(survey: &Survey<'_>, counts: &[u64], insts: u32) -> u64
    ensures { (f : ℕ → ℕ) → AreModelCounts survey.now f counts.now
        → result ≡ min (sum_by (at_path survey.now f) (map (λ i. i ∷ []) (range_with_len 0 insts))) 18446744073709551615 }
{
    let mut sum = 0u64;
    for i in 0..insts {
        sum = sum.saturating_add(count_of_inst(survey, counts, i));
    }
    sum
}

/// The count of the model of an instance of the root.
fn count_of_inst(survey: &Survey<'_>, counts: &[u64], i: u32) -> u64
    ensures { (f : ℕ → ℕ) → AreModelCounts survey.now f counts.now → result ≡ min (at_path survey.now f (i ∷ [])) 18446744073709551615 }
{
    match survey.model_of(survey.design().root, i) {
        Some(model) => count_at(counts, model),
        None => 0,
    }
}

/// The count of a model, and 0 past the last.
fn count_at(counts: &[u64], model: u32) -> u64
    ensures { result ≡ slice_index_or counts.now model 0 }
{
    counts.get(model as usize).copied().unwrap_or(0)
}

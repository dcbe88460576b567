ghost use Rattle.std.specs.Prelude.{◌≡◌, ◌<◌, ◌^◌, ℕ, min, length, sum_by, slice_get, slice_index_or, Some, IfOk};
ghost use Rattle.lid_design.specs.Models.{IsReached, insts_of};
ghost use Rattle.lid_design.specs.Elaboration.{is_open};
ghost use Rattle.lid_check_models.specs.Counts.{own, in_cell, with_instance, with_inst, count_by_subs, count_of, count_at_root};

use lid_check_hierarchy::Survey;
use lid_check_names::model_at;
use lid_design::{Cell, Init, Inst, Model};
use std::alloc::{AllocError, Global};

/// The greatest count that is told of a whole design. A count above it is told as this.
const TOP: u64 = 4_294_967_295;

/// What is counted over all instances of a design, or of a model and all that is in it.
#[derive(Clone, Copy)]
pub enum Measure {
    /// The longest chain of instances.
    Depth,
    /// Covers, latches and instances.
    Cells,
    /// Columns.
    Nets,
    /// Latches.
    Latches,
    /// Latches whose first bit was left open.
    Defaulted,
    /// Covers.
    Covers,
    /// The inputs of covers.
    CoverInputs,
    /// The rows of covers.
    CoverRows,
}

/// What is counted over all instances of a design, at most 4,294,967,295.
#[tactic(auto, unfolding(crate::specs::Counts::count_at_root))]
pub fn count_all(alloc: Global, survey: &Survey<'_>, what: Measure) -> Result<u64, AllocError>
    ensures { IfOk result (λ n. n ≡ min (count_at_root what survey.now) 4294967295) }
{
    let count = count_model(alloc, survey, what, survey.design().root)?;
    Ok(count.min(TOP))
}

/// What is counted in a reached model and in all instances in it, over all paths, at most
/// 18,446,744,073,709,551,615. For many models `count_each` takes the time of one.
pub fn count_model(
    alloc: Global,
    survey: &Survey<'_>,
    what: Measure,
    model: u32,
) -> Result<u64, AllocError>
    requires { IsReached survey.now model }
    ensures { IfOk result (λ n. n ≡ min (count_of what survey.now model) 18446744073709551615) }
{
    let counts = count_each(alloc, survey, what)?;
    Ok(read(counts.as_slice(), model))
}

/// What is counted in each reached model and in all instances in it, over all paths, by the numbers of
/// the models, each at most 18,446,744,073,709,551,615. It goes over each reached model once.
pub fn count_each(alloc: Global, survey: &Survey<'_>, what: Measure) -> Result<Vec<u64>, AllocError>
    ensures { IfOk result (λ counts. (k : ℕ) → IsReached survey.now k
        → slice_index_or counts.items k 0 ≡ min (count_of what survey.now k) 18446744073709551615) }
{
    let order = survey.order();
    let mut counts = Vec::from_elem(alloc, 0u64, survey.design().models.len())?;
    for k in order {
        let count = count_from(survey, what, *k, counts.as_slice());
        counts[*k as usize] = count;
    }
    Ok(counts)
}

/// What is counted in a model and in all instances in it, by the counts of the models of its instances.
fn count_from(survey: &Survey<'_>, what: Measure, k: u32, counts: &[u64]) -> u64
    requires { IsReached survey.now k }
    ensures { result ≡ min (count_by_subs what survey.now (λ j. slice_index_or counts.now j 0) k) 18446744073709551615 }
{
    match model_at(survey.design(), k) {
        Some(model) => count_with_insts(survey, what, k, model, counts),
        None => 0,
    }
}

/// What is counted in a model and in all instances in it, by the counts of the models of its instances.
fn count_with_insts(
    survey: &Survey<'_>,
    what: Measure,
    k: u32,
    model: &Model,
    counts: &[u64],
) -> u64
    requires reached { IsReached survey.now k }
    requires model { slice_get survey.now.models k ≡ Some model.now }
    requires few { length model.now.insts < 2 ^ 32 }
    ensures { result ≡ min (count_by_subs what survey.now (λ j. slice_index_or counts.now j 0) k) 18446744073709551615 }
{
    let mut count = count_own(survey, what, k, model);
    for i in 0..model.insts.len() {
        count = join_inst(survey, what, k, i as u32, count, counts);
    }
    count
}

/// Adds the count of the model of an instance.
fn join_inst(survey: &Survey<'_>, what: Measure, k: u32, i: u32, count: u64, counts: &[u64]) -> u64
    ensures { (inst : Inst) → slice_get (insts_of survey.now k) i ≡ Some inst
        → result ≡ min (with_inst what survey.now (λ j. slice_index_or counts.now j 0) count inst) 18446744073709551615 }
{
    match survey.model_of(k, i) {
        Some(sub) => join(what, count, read(counts, sub)),
        None => count,
    }
}

/// A count, and that of an instance's model.
fn join(what: Measure, count: u64, sub: u64) -> u64
    ensures { result ≡ min (with_instance what count sub) 18446744073709551615 }
{
    match what {
        Measure::Depth => count.max(sub.saturating_add(1)),
        Measure::Cells
        | Measure::Nets
        | Measure::Latches
        | Measure::Defaulted
        | Measure::Covers
        | Measure::CoverInputs
        | Measure::CoverRows => count.saturating_add(sub),
    }
}

/// The count at a place, and 0 past the last.
fn read(counts: &[u64], place: u32) -> u64
    ensures { result ≡ slice_index_or counts.now place 0 }
{
    counts.get(place as usize).copied().unwrap_or(0)
}

/// What is counted in a model itself.
fn count_own(survey: &Survey<'_>, what: Measure, k: u32, model: &Model) -> u64
    requires reached { IsReached survey.now k }
    requires model { slice_get survey.now.models k ≡ Some model.now }
    ensures { result ≡ min (own what survey.now k) 18446744073709551615 }
{
    match what {
        Measure::Depth => 0,
        Measure::Cells => (model.cells.len() as u64).saturating_add(model.insts.len() as u64),
        Measure::Nets => survey.count_nets(k) as u64,
        Measure::Latches
        | Measure::Defaulted
        | Measure::Covers
        | Measure::CoverInputs
        | Measure::CoverRows => count_cells(what, model.cells.as_slice()),
    }
}

/// What is counted in some cells.
fn count_cells(what: Measure, cells: &[Cell]) -> u64
    ensures { result ≡ min (sum_by (in_cell what) cells.now) 18446744073709551615 }
{
    let mut count = 0u64;
    for cell in cells {
        count = count.saturating_add(count_in_cell(what, cell));
    }
    count
}

/// What is counted in a cell.
fn count_in_cell(what: Measure, cell: &Cell) -> u64
    ensures { result ≡ in_cell what cell.now }
{
    match (what, cell) {
        (Measure::Latches, Cell::Latch { .. }) => 1,
        (Measure::Defaulted, Cell::Latch { init, .. }) => u64::from(is_open(*init)),
        (Measure::Covers, Cell::Names { .. }) => 1,
        (Measure::CoverInputs, Cell::Names { inputs, .. }) => inputs.len() as u64,
        (Measure::CoverRows, Cell::Names { cover, .. }) => cover.cubes.len() as u64,
        _ => 0,
    }
}

/// Whether the first bit of a latch was left open.
fn is_open(init: Init) -> bool
    ensures { result ≡ is_open init }
{
    match init {
        Init::Zero | Init::One => false,
        Init::DontCare | Init::Unknown => true,
    }
}

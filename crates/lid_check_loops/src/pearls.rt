//! Pearls, and the numbers of their columns.

ghost use Rattle.std.specs.Prelude.{◌≡◌, ◌⊎◌, ◌↔◌, ◌+◌, ◌<◌, ◌≤◌, ℕ, true, false, length, IfOk};
ghost use Rattle.std.specs.List.{AllByRecursion};
ghost use Rattle.lid_design.specs.Models.{IsReached, insts_of, data_inputs_of};
ghost use Rattle.lid_check_names.specs.Names.{texts};
ghost use Rattle.lid_check_digraph.specs.Graphs.{flag};
ghost use Rattle.lid_check_loops.specs.Pearls.{number_in, IsNumberOf, IsInputOf, IsFittingPearl, is_marked, ArePearls};

use lid_base::{Items, Name, copy_name};
use lid_check_hierarchy::Survey;
use std::alloc::{AllocError, Global};

/// A pearl: an instance of the root, or the root itself where it has none.
#[derive(Clone, Copy)]
pub(crate) struct Pearl {
    /// The number of its model.
    pub(crate) model: u32,
    /// The number of its first column.
    pub(crate) start: u32,
}

/// The data inputs of a reached model, in order.
///
/// # Errors
/// Where there is no memory.
pub fn find_inputs(
    alloc: Global,
    survey: &Survey<'_>,
    model: u32,
) -> Result<Items<Name>, AllocError>
    requires { IsReached survey.now model }
    ensures { IfOk result (λ names. names ≡ data_inputs_of survey.now model) }
{
    copy_all(alloc, survey.data_inputs(model))
}

/// A copy of some names.
fn copy_all(alloc: Global, names: &[&[u8]]) -> Result<Items<Name>, AllocError>
    ensures { IfOk result (λ copied. copied ≡ texts names.now) }
{
    let mut copied = Vec::with_capacity(alloc, names.len())?;
    for name in names {
        copied.push(copy_name(alloc, name)?)?;
    }
    Ok(Items::from_vec(copied))
}

/// A pearl for each instance of the root, by the numbers of their first columns.
fn list_instances(
    alloc: Global,
    survey: &Survey<'_>,
    starts: &[u32],
) -> Result<Items<Pearl>, AllocError>
    requires some { 0 < length (insts_of survey.now survey.now.root) }
    requires count { length starts.now ≡ length (insts_of survey.now survey.now.root) }
    ensures { IfOk result (ArePearls survey.now starts.now) }
{
    let root = survey.design().root;
    let mut pearls = Vec::new(alloc);
    for i in 0..starts.len() {
        match survey.model_of(root, i as u32) {
            Some(model) => pearls.push(Pearl {
                model,
                start: starts[i],
            })?,
            None => unreachable!(),
        }
    }
    Ok(Items::from_vec(pearls))
}

/// The pearls of a design, by the numbers of the first columns of the root's instances.
///
/// # Errors
/// Where there is no memory.
pub(crate) fn list_pearls(
    alloc: Global,
    survey: &Survey<'_>,
    starts: &[u32],
) -> Result<Items<Pearl>, AllocError>
    requires { length starts.now ≡ length (insts_of survey.now survey.now.root) }
    ensures { IfOk result (ArePearls survey.now starts.now) }
{
    if starts.is_empty() {
        let whole = Pearl {
            model: survey.design().root,
            start: 0,
        };
        return Ok(Items::from_vec(vec![in alloc; whole]?));
    }
    list_instances(alloc, survey, starts)
}

/// The number of the column of a net of a pearl, where it has one.
pub(crate) fn number_of(survey: &Survey<'_>, pearl: Pearl, net: &[u8]) -> Option<u32>
    requires { IsFittingPearl survey.now 1048577 pearl }
    ensures { result ≡ number_in survey.now pearl net.now }
{
    match survey.place_of(pearl.model, net) {
        Some(place) => Some(pearl.start + place as u32),
        None => None,
    }
}

/// Whether the column of a net of a pearl is marked.
pub(crate) fn is_marked(survey: &Survey<'_>, pearl: Pearl, marks: &[bool], net: &[u8]) -> bool
    requires fits { IsFittingPearl survey.now (length marks.now) pearl }
    requires few { length marks.now ≤ 1048576 }
    ensures { result ≡ is_marked survey.now pearl marks.now net.now }
{
    match number_of(survey, pearl, net) {
        Some(number) => marks[number as usize],
        None => false,
    }
}

/// Marks the column of a net of a pearl, where it has one.
fn mark_net(marks: &mut [bool], survey: &Survey<'_>, pearl: Pearl, net: &[u8])
    requires fits { IsFittingPearl survey.now (length marks.old) pearl }
    requires few { length marks.old ≤ 1048576 }
    ensures { (k : ℕ) → (flag marks.new k ≡ true) ↔ ((flag marks.old k ≡ true) ⊎ (number_in survey.now pearl net.now ≡ Some k)) }
{
    match number_of(survey, pearl, net) {
        Some(number) => marks[number as usize] = true,
        None => (),
    }
}

/// Marks the columns of some nets of a pearl.
fn mark_nets(marks: &mut [bool], survey: &Survey<'_>, pearl: Pearl, nets: &[&[u8]])
    requires fits { IsFittingPearl survey.now (length marks.old) pearl }
    requires few { length marks.old ≤ 1048576 }
    ensures { (k : ℕ) → (flag marks.new k ≡ true) ↔ ((flag marks.old k ≡ true) ⊎ IsNumberOf survey.now pearl (texts nets.now) k) }
{
    for net in nets {
        mark_net(marks, survey, pearl, net);
    }
}

/// Marks the columns of the data inputs of some pearls.
fn mark_inputs(marks: &mut [bool], survey: &Survey<'_>, pearls: &[Pearl])
    requires fit { AllByRecursion (IsFittingPearl survey.now (length marks.old)) pearls.now }
    requires few { length marks.old ≤ 1048576 }
    ensures { (k : ℕ) → (flag marks.new k ≡ true) ↔ ((flag marks.old k ≡ true) ⊎ IsInputOf survey.now pearls.now k) }
{
    for pearl in pearls {
        mark_nets(marks, survey, *pearl, survey.data_inputs(pearl.model));
    }
}

/// For each column whether it is that of a data input of a pearl.
///
/// # Errors
/// Where there is no memory.
pub(crate) fn find_starts(
    alloc: Global,
    survey: &Survey<'_>,
    pearls: &[Pearl],
    count: usize,
) -> Result<Items<bool>, AllocError>
    requires fit { AllByRecursion (IsFittingPearl survey.now count) pearls.now }
    requires few { count ≤ 1048576 }
    ensures count { IfOk result (λ starts. length starts ≡ count) }
    ensures exact { IfOk result (λ starts. (k : ℕ) → (flag starts k ≡ true) ↔ IsInputOf survey.now pearls.now k) }
{
    let mut starts = Vec::from_elem(alloc, false, count)?;
    mark_inputs(starts.as_mut_slice(), survey, pearls);
    Ok(Items::from_vec(starts))
}

/// Marks the first ones of some numbers.
///
/// # Errors
/// Where there is no memory.
pub(crate) fn mark_first(
    alloc: Global,
    first: usize,
    count: usize,
) -> Result<Items<bool>, AllocError>
    requires { first ≤ count }
    ensures count { IfOk result (λ marks. length marks ≡ count) }
    ensures exact { IfOk result (λ marks. (k : ℕ) → (flag marks k ≡ true) ↔ (k < first)) }
{
    let mut marks = Vec::from_elem(alloc, false, count)?;
    for k in 0..first {
        marks[k] = true;
    }
    Ok(Items::from_vec(marks))
}

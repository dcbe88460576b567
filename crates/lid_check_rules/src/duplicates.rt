ghost use Rattle.std.specs.Prelude.{◌≡◌, ◌++◌, ◌&&◌, ◌||◌, find, IfOk};
ghost use Rattle.lid_check_names.specs.Names.{is_among, texts, IsTally};
ghost use Rattle.lid_check_rules.specs.Conditions.{is_duplicate, duplicate_in, first_name};
ghost use Rattle.lid_check_rules.specs.Early.{duplicate_at, duplicates};
ghost use Rattle.lid_check_ports.specs.Formals.{name_behind};
ghost use Rattle.lid_check_rules.specs.Told.{shown_of};

use crate::told::{NameFault, Told};
use lid_check_names::{NameTally, model_at, push_ports, tally_of};
use lid_design::{Design, Model};
use std::alloc::{AllocError, Global};

/// The names of each list of a model, with those that stand in it more than once.
#[derive(Drop)]
struct Lists<'d> {
    model: &'d Model,
    inputs: NameTally<'d>,
    outputs: NameTally<'d>,
    clocks: NameTally<'d>,
    ghost of_inputs: { IsTally model.now.inputs inputs.all inputs.twice },
    ghost of_outputs: { IsTally model.now.outputs outputs.all outputs.twice },
    ghost of_clocks: { IsTally model.now.clocks clocks.all clocks.twice },
}

/// Tells of the first reached model in whose lists a name stands twice.
pub fn find_duplicate<'d>(
    alloc: Global,
    design: &'d Design,
    reached: &[u32],
) -> Result<Option<Told<'d>>, AllocError>
    ensures { IfOk result (λ told. shown_of told ≡ duplicates design.now reached.now) }
{
    for k in reached {
        let told = find_duplicate_at(alloc, design, *k)?;
        if told.is_some() {
            return Ok(told);
        }
    }
    Ok(None)
}

/// Tells of a name that stands twice in the lists of the model of a number.
#[tactic(auto, unfolding(crate::specs::Early::duplicate_at))]
fn find_duplicate_at<'d>(
    alloc: Global,
    design: &'d Design,
    k: u32,
) -> Result<Option<Told<'d>>, AllocError>
    ensures { IfOk result (λ told. shown_of told ≡ duplicate_at design.now k) }
{
    match model_at(design, k) {
        Some(model) => find_duplicate_in(alloc, k == design.root, model),
        None => Ok(None),
    }
}

/// Tells of a name that stands twice in the lists of a model.
fn find_duplicate_in<'d>(
    alloc: Global,
    is_root: bool,
    model: &'d Model,
) -> Result<Option<Told<'d>>, AllocError>
    ensures { IfOk result (λ told. shown_of told ≡ duplicate_in is_root model.now) }
{
    match first_duplicate(alloc, is_root, model)? {
        Some(name) => Ok(Some(Told::OfName {
            fault: NameFault::DuplicateName,
            model: model.name.as_slice(),
            name,
        })),
        None => Ok(None),
    }
}

/// The first name of a model that stands twice in its lists.
fn first_duplicate<'d>(
    alloc: Global,
    is_root: bool,
    model: &'d Model,
) -> Result<Option<&'d [u8]>, AllocError>
    ensures { IfOk result (λ name. name_behind name ≡ first_name (is_duplicate is_root model.now) model.now) }
{
    let lists = tally_lists(alloc, model)?;
    first_in_lists(alloc, is_root, &lists)
}

/// The first name of a model that stands twice in its lists, by the names of each. It stands in a list.
fn first_in_lists<'d>(
    alloc: Global,
    is_root: bool,
    lists: &Lists<'d>,
) -> Result<Option<&'d [u8]>, AllocError>
    ensures { IfOk result (λ name. name_behind name ≡ first_name (is_duplicate is_root lists.now.model.now) lists.now.model.now) }
{
    let names = list_ports(alloc, lists.model)?;
    Ok(first_among(is_root, lists, names.as_slice()))
}

/// The names in the lists of a model.
fn list_ports<'d>(alloc: Global, model: &'d Model) -> Result<Vec<&'d [u8]>, AllocError>
    ensures { IfOk result (λ list. texts list.items ≡ model.now.inputs ++ model.now.outputs ++ model.now.clocks) }
{
    let mut list = Vec::new(alloc);
    push_ports(&mut list, model)?;
    Ok(list)
}

/// Collects the names of each list of a model.
fn tally_lists<'d>(alloc: Global, model: &'d Model) -> Result<Lists<'d>, AllocError>
    ensures { IfOk result (λ lists. lists.model.now ≡ model.now) }
{
    let inputs = tally_of(alloc, model.inputs.as_slice())?;
    let outputs = tally_of(alloc, model.outputs.as_slice())?;
    let clocks = tally_of(alloc, model.clocks.as_slice())?;
    Ok(Lists {
        model,
        inputs,
        outputs,
        clocks,
    })
}

/// The first of some names that stands twice in the lists of a model.
fn first_among<'d>(is_root: bool, lists: &Lists<'d>, names: &[&'d [u8]]) -> Option<&'d [u8]>
    ensures { name_behind result ≡ find (is_duplicate is_root lists.now.model.now) (texts names.now) }
{
    for name in names {
        if is_duplicate(is_root, lists, name) {
            return Some(*name);
        }
    }
    None
}

/// Whether a name stands twice in the lists of a model.
fn is_duplicate(is_root: bool, lists: &Lists<'_>, name: &[u8]) -> bool
    ensures { result ≡ is_duplicate is_root lists.now.model.now name.now }
{
    lists.inputs.twice.has(name)
        || (lists.outputs.twice.has(name)
            || (lists.clocks.twice.has(name) || (!is_root && is_both_ways(lists, name))))
}

/// Whether a name stands among the outputs of a model, and among its inputs or clocks.
fn is_both_ways(lists: &Lists<'_>, name: &[u8]) -> bool
    ensures { result ≡ (is_among name.now lists.now.model.now.outputs
        && (is_among name.now lists.now.model.now.inputs || is_among name.now lists.now.model.now.clocks)) }
{
    lists.outputs.all.has(name) && (lists.inputs.all.has(name) || lists.clocks.all.has(name))
}

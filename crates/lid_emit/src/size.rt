//! The size of a wrapped design.

ghost use Rattle.std.specs.Prelude.{◌≡◌, min, sum_by, IfOk, OnOk};
ghost use Rattle.lid_check_hierarchy.specs.Surveys.{AreKnown};
ghost use Rattle.lid_stations.specs.Placed.{links_in};
ghost use Rattle.lid_emit_meaning.specs.Sizes.{name_size, ports_size, pearls_size, size};

use crate::pearls::cells_of_pearls;
use crate::stations::stations_size;
use lid_base::Name;
use lid_check::Checked;
use lid_check_hierarchy::{Survey, SurveyFault, find_uses, survey_models};
use lid_stations::Placed;
use std::alloc::{AllocError, Global};

/// The size of the wrapped design of a system and its stations.
///
/// # Errors
/// Where there is no memory, or the size is over 18,446,744,073,709,551,614.
#[tactic(auto, unfolding(lid_emit_meaning::specs::Sizes::size))]
pub fn emitted_size(
    alloc: Global,
    checked: &Checked,
    placed: &Placed<'_>,
) -> Result<u64, AllocError>
    ensures { IfOk result (λ count. count ≡ size checked.now (links_in placed.now) placed.now.placement) }
{
    let pearls = pearls_size(alloc, checked)?;
    let size = ports_size(checked)
        .saturating_add(stations_size(placed))
        .saturating_add(pearls);
    if size == u64::MAX {
        return Err(AllocError);
    }
    Ok(size)
}

/// The size of the data inputs and outputs, at most 18,446,744,073,709,551,615.
fn ports_size(checked: &Checked) -> u64
    ensures { result ≡ min (ports_size checked.now) 18446744073709551615 }
{
    names_size(checked.inputs()).saturating_add(names_size(checked.outputs()))
}

/// The size of some names, at most 18,446,744,073,709,551,615.
fn names_size(names: &[Name]) -> u64
    ensures { result ≡ min (sum_by name_size names.now) 18446744073709551615 }
{
    let mut size = 0u64;
    for name in names {
        size = size.saturating_add(name_size(name.as_slice()));
    }
    size
}

/// The size of a name.
fn name_size(name: &[u8]) -> u64
    ensures { result ≡ name_size name.now }
{
    name.len() as u64 + 1
}

/// The size of all pearls, at most 18,446,744,073,709,551,615.
fn pearls_size(alloc: Global, checked: &Checked) -> Result<u64, AllocError>
    ensures { IfOk result (λ n. n ≡ min (pearls_size checked.now) 18446744073709551615) }
{
    let survey = survey_of(alloc, checked)?;
    let cells = cells_of_pearls(alloc, &survey)?;
    Ok(cells.saturating_add(u64::from(checked.pearls())))
}

/// What is found of the models of a design that was accepted.
fn survey_of<'d>(alloc: Global, checked: &'d Checked) -> Result<Survey<'d>, AllocError>
    ensures survey { IfOk result (λ survey. survey ≡ checked.now) }
    ensures known { OnOk result (AreKnown checked.now) }
{
    let uses = find_uses(alloc, checked.design())?;
    match survey_models(alloc, uses) {
        Ok(survey) => Ok(survey),
        Err(SurveyFault::Memory) => Err(AllocError),
        Err(SurveyFault::Recursive { .. }) => unreachable!(),
    }
}

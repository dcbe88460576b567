//! The column of a number.

ghost use Rattle.std.specs.Prelude.{◌≡◌, ◌≤◌, ◌<◌, ◌+◌, [], Some, length, reverse, slice_get, slice_index, IfOk};
ghost use Rattle.lid_design.specs.Columns.{column};
ghost use Rattle.lid_design.specs.Models.{IsReached, instance_number};
ghost use Rattle.lid_design.specs.Elaboration.{columns, model_nets};
ghost use Rattle.lid_check_elab.specs.Numbers.{size_of, offset_of, IsColumnSpot};
ghost use Rattle.lid_check_elab.specs.Parts.{AreTemplates};

use crate::template::{Template, find_templates};
use lid_base::{Items, Name, copy_name};
use lid_check_drivers::Judged;
use std::alloc::{AllocError, Global};

/// A column of a model or of the instances in it, by its number from the first column of the model
/// on.
#[derive(Clone, Copy)]
struct Spot {
    model: u32,
    number: u32,
}

/// The path and the name of a column, by its number. The path has the instance numbers from the
/// root's on.
///
/// # Errors
/// Where there is no memory.
pub fn find_column(
    alloc: Global,
    judged: &Judged<'_>,
    number: u32,
) -> Result<(Items<u32>, Name), AllocError>
    requires { number < length (columns judged.now) }
    ensures { IfOk result (λ found. slice_get (columns judged.now) number ≡ Some (column (reverse found.0) found.1)) }
{
    let templates = find_templates(alloc, judged)?;
    find_by(alloc, judged, templates.as_slice(), number)
}

/// The path and the name of a column, by what is known of the models.
fn find_by(
    alloc: Global,
    judged: &Judged<'_>,
    templates: &[Template],
    number: u32,
) -> Result<(Items<u32>, Name), AllocError>
    requires templates { AreTemplates judged.now templates.now }
    requires exists { number < length (columns judged.now) }
    ensures { IfOk result (λ found. slice_get (columns judged.now) number ≡ Some (column (reverse found.0) found.1)) }
{
    let _ = judged.design();
    let mut path = Vec::new(alloc);
    let spot = enter_all(judged, templates, number, &mut path)?;
    let name = copy_name(alloc, net_of(judged, spot))?;
    Ok((Items::from_vec(path), name))
}

/// Pushes the instances that a column stands in, from the root's on, and answers where it stands in
/// the last one.
fn enter_all(
    judged: &Judged<'_>,
    templates: &[Template],
    number: u32,
    path: &mut Vec<u32>,
) -> Result<Spot, AllocError>
    requires templates { AreTemplates judged.now templates.now }
    requires exists { number < length (columns judged.now) }
    requires none { path.old.items ≡ [] }
    ensures spot { IfOk result (λ spot. IsColumnSpot judged.now (reverse path.new.items) spot.model spot.number number) }
    ensures net { IfOk result (λ spot. spot.number < length (model_nets judged.now spot.model)) }
{
    let mut spot = Spot {
        model: judged.design().root,
        number,
    };
    while judged.count_nets(spot.model) <= spot.number as usize {
        let (inst, inner) = enter(judged, templates, spot);
        path.push(inst)?;
        spot = inner;
    }
    Ok(spot)
}

/// The instance that a column past the nets of a model stands in, and the column in there.
fn enter(judged: &Judged<'_>, templates: &[Template], spot: Spot) -> (u32, Spot)
    requires templates { AreTemplates judged.now templates.now }
    requires reached { IsReached judged.now spot.model }
    requires past { length (model_nets judged.now spot.model) ≤ spot.number }
    requires within { spot.number < size_of judged.now spot.model }
    ensures model { instance_number judged.now result.0 spot.model ≡ Some result.1.model }
    ensures number { spot.number ≡ offset_of judged.now spot.model result.0 + result.1.number }
    ensures within { result.1.number < size_of judged.now result.1.model }
{
    let _ = judged.design();
    let offsets = templates[spot.model as usize].offsets.as_slice();
    let place = last_up_to(offsets, spot.number);
    let inst = place as u32;
    match judged.model_of(spot.model, inst) {
        Some(model) => {
            let number = spot.number - offsets[place];
            (inst, Spot { model, number })
        }
        None => unreachable!(),
    }
}

/// The place of a number that is not above `most`, where the next one is; the first is not above it.
fn last_up_to(numbers: &[u32], most: u32) -> usize
    requires some { 0 < length numbers.now }
    requires first { slice_index numbers.now 0 ≤ most }
    ensures inside { result < length numbers.now }
    ensures below { slice_index numbers.now result ≤ most }
    ensures above { result + 1 < length numbers.now → most < slice_index numbers.now (result + 1) }
{
    for i in 1..numbers.len() {
        if numbers[i] > most {
            return i - 1;
        }
    }
    numbers.len() - 1
}

/// The name of a net of a model.
fn net_of<'d>(judged: &Judged<'d>, spot: Spot) -> &'d [u8]
    requires reached { IsReached judged.now spot.model }
    requires exists { spot.number < length (model_nets judged.now spot.model) }
    ensures { slice_get (model_nets judged.now spot.model) spot.number ≡ Some result.now }
{
    match judged.net_at(spot.model, spot.number as usize) {
        Some(net) => net,
        None => unreachable!(),
    }
}

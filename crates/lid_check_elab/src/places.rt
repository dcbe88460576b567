ghost use Rattle.std.specs.Prelude.{◌≡◌, ◌<◌, ◌^◌, ℕ, List, Some, length, map, slice_get, IfOk};
ghost use Rattle.lid_design.specs.Models.{insts_of, IsReached};
ghost use Rattle.lid_design.specs.Elaboration.{model_nets};
ghost use Rattle.lid_check_table.specs.Tables.{AreNumbersOf};
ghost use Rattle.lid_check_elab.specs.Templates.{model_names, name_at, net_place};

use lid_base::Items;
use lid_check_drivers::Judged;
use lid_design::{Inst, Model};
use std::alloc::{AllocError, Global};

/// An instance, with the numbers of its actuals.
#[derive(Clone, Copy)]
pub struct Numbered<'a> {
    pub inst: &'a Inst,
    pub actuals: &'a [u32],
}

/// A reached model, by its number.
pub fn model_at<'d>(judged: &Judged<'d>, model: u32) -> &'d Model
    requires { IsReached judged.now model }
    ensures { slice_get judged.now.models model ≡ Some result.now }
{
    &judged.design().models.as_slice()[model as usize]
}

/// The instances of a reached model.
pub fn insts_at<'d>(judged: &Judged<'d>, model: u32) -> &'d [Inst]
    requires { IsReached judged.now model }
    ensures same { result.now ≡ insts_of judged.now model }
    ensures few { length result.now < 2 ^ 32 }
{
    let _ = judged.design();
    model_at(judged, model).insts.as_slice()
}

/// How many nets a model has.
pub fn count_nets(judged: &Judged<'_>, model: u32) -> u32
    requires { IsReached judged.now model }
    ensures { result ≡ length (model_nets judged.now model) }
{
    let _ = judged.design();
    judged.count_nets(model) as u32
}

/// The place of a net among the nets of a model; their number where it is none.
pub fn place_in(judged: &Judged<'_>, model: u32, net: &[u8]) -> u32
    requires { IsReached judged.now model }
    ensures { result ≡ net_place judged.now model net.now }
{
    let _ = judged.design();
    match judged.place_of(model, net) {
        Some(place) => place as u32,
        None => count_nets(judged, model),
    }
}

/// The place of the net of a number among the nets of a model; how many there are where it is none.
pub fn place_at(judged: &Judged<'_>, model: u32, number: u32) -> u32
    requires { IsReached judged.now model }
    ensures { (name : List ℕ) → name_at judged.now model number ≡ Some name → result ≡ net_place judged.now model name }
{
    let _ = judged.design();
    match judged.place_at(model, number) {
        Some(place) => place,
        None => count_nets(judged, model),
    }
}

/// The places of the nets of some numbers among the nets of a model.
pub fn places_at(
    alloc: Global,
    judged: &Judged<'_>,
    model: u32,
    numbers: &[u32],
) -> Result<Items<u32>, AllocError>
    requires { IsReached judged.now model }
    ensures { IfOk result (λ places. (names : List (List ℕ)) → AreNumbersOf (model_names judged.now model) names numbers.now → places ≡ map (net_place judged.now model) names) }
{
    let mut places = Vec::with_capacity(alloc, numbers.len())?;
    for number in numbers {
        places.push(place_at(judged, model, *number))?;
    }
    Ok(Items::from_vec(places))
}

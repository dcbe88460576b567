ghost use Rattle.std.specs.Prelude.{◌≡◌, ◌<◌, ◌^◌, Some, length, slice_get};
ghost use Rattle.lid_design.specs.Models.{insts_of};
ghost use Rattle.lid_check_rules.specs.Conditions.{in_insts, unknown_at};
ghost use Rattle.lid_check_rules.specs.Early.{unknown_in, unknowns};
ghost use Rattle.lid_check_rules.specs.Told.{shown_of};

use crate::told::{InstFault, Told};
use lid_check_hierarchy::Uses;
use lid_check_names::model_at;
use lid_design::{Inst, Model};

/// Tells of the first instance of a reached model that names no model.
pub fn find_unknown_model<'d>(uses: &Uses<'d>, reached: &[u32]) -> Option<Told<'d>>
    ensures { shown_of result ≡ unknowns uses.now reached.now }
{
    for k in reached {
        let told = find_unknown_at(uses, *k);
        if told.is_some() {
            return told;
        }
    }
    None
}

/// Tells of the first instance of the model of a number that names no model.
#[tactic(auto, unfolding(crate::specs::Early::unknown_in))]
fn find_unknown_at<'d>(uses: &Uses<'d>, k: u32) -> Option<Told<'d>>
    ensures { shown_of result ≡ unknown_in uses.now k }
{
    match model_at(uses.design(), k) {
        Some(model) => find_unknown_in(uses, k, model),
        None => None,
    }
}

/// Tells of the first instance of a model that names no model.
fn find_unknown_in<'d>(uses: &Uses<'d>, k: u32, model: &'d Model) -> Option<Told<'d>>
    requires model { slice_get uses.now.models k ≡ Some model.now }
    requires few { length model.now.insts < 2 ^ 32 }
    ensures { shown_of result ≡ in_insts (unknown_at uses.now model.now) model.now }
{
    let insts = model.insts.as_slice();
    for i in 0..insts.len() {
        let told = find_unknown_of(uses, k, i as u32, model, &insts[i]);
        if told.is_some() {
            return told;
        }
    }
    None
}

/// Tells of an instance that names no model.
fn find_unknown_of<'d>(
    uses: &Uses<'d>,
    k: u32,
    i: u32,
    model: &'d Model,
    inst: &'d Inst,
) -> Option<Told<'d>>
    requires { slice_get (insts_of uses.now k) i ≡ Some inst.now }
    ensures { shown_of result ≡ unknown_at uses.now model.now i inst.now }
{
    match uses.model_of(k, i) {
        Some(_) => None,
        None => Some(Told::OfInst {
            fault: InstFault::UnknownModel,
            model: model.name.as_slice(),
            inst: i,
            name: inst.model.as_slice(),
        }),
    }
}

ghost use Rattle.std.specs.Prelude.{◌≡◌, Some, map, slice_get, IfOk};
ghost use Rattle.lid_design.specs.Models.{firsts, insts_of, IsReached, formal_of, actual_names};
ghost use Rattle.lid_check_names.specs.Names.{texts};
ghost use Rattle.lid_check_table.specs.Tables.{AreNumbersOf};
ghost use Rattle.lid_check_drivers.specs.Locals.{actual_for};
ghost use Rattle.lid_check_elab.specs.Parts.{places_in_inst};
ghost use Rattle.lid_check_elab.specs.Templates.{model_names, net_place};

use crate::places::{Numbered, insts_at, place_at, place_in};
use lid_base::Items;
use lid_check_drivers::Judged;
use lid_check_names::{NameSet, list_formals};
use lid_design::Bind;
use std::alloc::{AllocError, Global};

/// For each instance of a model, the nets that its data inputs are bound to.
pub fn actuals_of(
    alloc: Global,
    judged: &Judged<'_>,
    model: u32,
) -> Result<Items<Items<u32>>, AllocError>
    requires { IsReached judged.now model }
    ensures { IfOk result (λ actuals. actuals ≡ map (places_in_inst judged.now model) (insts_of judged.now model)) }
{
    let mut left = judged.table_of(model).actuals();
    let insts = insts_at(judged, model);
    let mut all = Vec::with_capacity(alloc, insts.len())?;
    for i in 0..insts.len() {
        let inst = &insts[i];
        let (actuals, rest) = left.split_at(inst.binds.len());
        let numbered = Numbered { inst, actuals };
        all.push(find_bound(alloc, judged, model, i as u32, numbered)?)?;
        left = rest;
    }
    Ok(Items::from_vec(all))
}

/// The nets that the data inputs of an instance of a model are bound to.
fn find_bound(
    alloc: Global,
    judged: &Judged<'_>,
    model: u32,
    i: u32,
    numbered: Numbered<'_>,
) -> Result<Items<u32>, AllocError>
    requires reached { IsReached judged.now model }
    requires inst { slice_get (insts_of judged.now model) i ≡ Some numbered.inst.now }
    requires actuals { AreNumbersOf (model_names judged.now model) (actual_names numbered.inst.now) numbered.actuals.now }
    ensures { IfOk result (λ places. places ≡ places_in_inst judged.now model numbered.entry.inst.now) }
{
    let _ = judged.design();
    match judged.model_of(model, i) {
        Some(sub) => find_places(alloc, judged, model, numbered, judged.data_inputs(sub)),
        None => Ok(Items::from_vec(Vec::new(alloc))),
    }
}

/// The nets that some formals of an instance are bound to.
fn find_places(
    alloc: Global,
    judged: &Judged<'_>,
    model: u32,
    numbered: Numbered<'_>,
    formals: &[&[u8]],
) -> Result<Items<u32>, AllocError>
    requires reached { IsReached judged.now model }
    requires once { firsts (map formal_of numbered.inst.now.binds) ≡ map formal_of numbered.inst.now.binds }
    requires actuals { AreNumbersOf (model_names judged.now model) (actual_names numbered.inst.now) numbered.actuals.now }
    ensures { IfOk result (λ places. places ≡ map (λ formal. net_place judged.now model (actual_for numbered.entry.inst.now formal)) (texts formals.now)) }
{
    let bound = formals_of(alloc, numbered.inst.binds.as_slice())?;
    list_places(alloc, judged, model, numbered, &bound, formals)
}

/// The nets that some formals of an instance are bound to, by the set of those that are bound.
fn list_places(
    alloc: Global,
    judged: &Judged<'_>,
    model: u32,
    numbered: Numbered<'_>,
    bound: &NameSet<'_>,
    formals: &[&[u8]],
) -> Result<Items<u32>, AllocError>
    requires reached { IsReached judged.now model }
    requires bound { bound.now ≡ map formal_of numbered.inst.now.binds }
    requires actuals { AreNumbersOf (model_names judged.now model) (actual_names numbered.inst.now) numbered.actuals.now }
    ensures { IfOk result (λ places. places ≡ map (λ formal. net_place judged.now model (actual_for numbered.entry.inst.now formal)) (texts formals.now)) }
{
    let mut places = Vec::with_capacity(alloc, formals.len())?;
    for formal in formals {
        places.push(place_for(judged, model, numbered, bound, formal))?;
    }
    Ok(Items::from_vec(places))
}

/// The formals of some bindings.
fn formals_of<'d>(alloc: Global, binds: &'d [Bind]) -> Result<NameSet<'d>, AllocError>
    ensures { IfOk result (λ set. set ≡ firsts (map formal_of binds.now)) }
{
    let formals = list_formals(alloc, binds)?;
    NameSet::collect(alloc, formals.as_slice())
}

/// The place of the net around an instance that a formal is bound to; that of the empty name where it
/// is not bound.
fn place_for(
    judged: &Judged<'_>,
    model: u32,
    numbered: Numbered<'_>,
    bound: &NameSet<'_>,
    formal: &[u8],
) -> u32
    requires reached { IsReached judged.now model }
    requires bound { bound.now ≡ map formal_of numbered.inst.now.binds }
    requires actuals { AreNumbersOf (model_names judged.now model) (actual_names numbered.inst.now) numbered.actuals.now }
    ensures { result ≡ net_place judged.now model (actual_for numbered.entry.inst.now formal.now) }
{
    match bound.place_of(formal) {
        Some(place) => place_at(judged, model, numbered.actuals[place]),
        None => place_in(judged, model, &[]),
    }
}

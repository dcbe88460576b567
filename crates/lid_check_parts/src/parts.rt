//! A part for each pearl.

ghost use Rattle.std.specs.Prelude.{◌≡◌, ◌+◌, ◌-◌, ◌<◌, ◌≤◌, Some, length, slice_get, slice_index, slice_index_or, IfOk};
ghost use Rattle.lid_design.specs.Loops.{pearls};
ghost use Rattle.lid_design.specs.Models.{IsReached, insts_of, instance_number, data_inputs_of};
ghost use Rattle.lid_check_parts.specs.Parts.{IsNetworkPart};
ghost use Rattle.lid_check_parts.specs.PearlParts.{outputs_of, ArePortsApart, IsPearlPart, ArePearlParts};

use crate::part::PearlPart;
use lid_base::Items;
use lid_check_drivers::Judged;
use lid_check_elab::Elaboration;
use std::alloc::{AllocError, Global};

/// The part of so many columns from a first one on, for a pearl with this model.
fn part_of(judged: &Judged<'_>, model: u32, start: u32, nets: u32) -> PearlPart
    requires reached { IsReached judged.now model }
    requires few { length (data_inputs_of judged.now model) + length (outputs_of judged.now model) ≤ 1048576 }
    ensures start { result.start ≡ start }
    ensures nets { result.nets ≡ nets }
    ensures inputs { result.inputs ≡ length (data_inputs_of judged.now model) }
    ensures outputs { result.outputs ≡ length (outputs_of judged.now model) }
{
    let body = &judged.design().models.as_slice()[model as usize];
    PearlPart {
        start,
        nets,
        inputs: judged.data_inputs(model).len() as u32,
        outputs: body.outputs.len() as u32,
    }
}

/// The part of the root where it has no instances.
fn whole_part(columns: &Elaboration<'_>) -> PearlPart
    requires apart { ArePortsApart columns.now.design }
    requires none { length columns.now.starts ≡ 0 }
    ensures { IsPearlPart columns.now.design 0 result × IsNetworkPart columns.now.drivers result }
{
    let judged = columns.judged();
    let root = judged.design().root;
    part_of(judged, root, 0, columns.drivers().len() as u32)
}

/// Where the next instance of the root starts, or how many columns there are after the last.
fn end_of(columns: &Elaboration<'_>, i: usize) -> u32
    requires { i < length columns.now.starts }
    ensures { result ≡ slice_index_or columns.now.starts (i + 1) (length columns.now.drivers) }
{
    let _ = columns.judged();
    match columns.starts().get(i + 1) {
        Some(next) => *next,
        None => columns.drivers().len() as u32,
    }
}

/// The part of an instance of the root.
fn inst_part(columns: &Elaboration<'_>, i: usize) -> PearlPart
    requires apart { ArePortsApart columns.now.design }
    requires there { i < length columns.now.starts }
    ensures { IsPearlPart columns.now.design i result × IsNetworkPart columns.now.drivers result }
{
    let judged = columns.judged();
    let start = columns.starts()[i];
    let end = end_of(columns, i);
    match judged.model_of(judged.design().root, i as u32) {
        Some(model) => part_of(judged, model, start, end - start),
        None => unreachable!(),
    }
}

/// A part for each instance of the root, in order.
fn inst_parts(alloc: Global, columns: &Elaboration<'_>) -> Result<Items<PearlPart>, AllocError>
    requires apart { ArePortsApart columns.now.design }
    requires some { 0 < length columns.now.starts }
    ensures { IfOk result (ArePearlParts columns.now.design columns.now.drivers) }
{
    let _ = columns.judged();
    let mut parts = Vec::with_capacity(alloc, columns.starts().len())?;
    for i in 0..columns.starts().len() {
        parts.push(inst_part(columns, i))?;
    }
    Ok(Items::from_vec(parts))
}

/// A part for each pearl, in order.
///
/// # Errors
/// Where there is no memory.
pub fn find_parts(alloc: Global, columns: &Elaboration<'_>) -> Result<Items<PearlPart>, AllocError>
    requires { ArePortsApart columns.now.design }
    ensures { IfOk result (ArePearlParts columns.now.design columns.now.drivers) }
{
    let _ = columns.judged();
    if columns.starts().is_empty() {
        let whole = whole_part(columns);
        return Ok(Items::from_vec(vec![in alloc; whole]?));
    }
    inst_parts(alloc, columns)
}

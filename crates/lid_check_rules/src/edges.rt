ghost use Rattle.std.specs.Prelude.{◌≡◌, ◌++◌, not, find, flat_map, map, option_map, IfOk, OnOk};
ghost use denote.Ref.{Bor};
ghost use Rattle.lid_check_rules.specs.declared.edges.Typed.{Typed};
ghost use Rattle.lid_check_rules.specs.Conditions.{typed_cell, typed_latches, same_edge, other_edge, mixed_edges};
ghost use Rattle.lid_check_rules.specs.Edges.{latch_seen, typed_in, typed_of};
ghost use Rattle.lid_check_rules.specs.Told.{shown_of};

use crate::told::{NameFault, Told};
use lid_check_names::model_at;
use lid_design::{Cell, Design, LatchKind, Model};
use std::alloc::{AllocError, Global};

/// A latch that has a type, with the names of its model and of its output.
#[derive(Clone, Copy)]
struct Typed<'d> {
    model: &'d [u8],
    out: &'d [u8],
    /// Whether it takes its input at the rising edge.
    rises: bool,
}

/// Tells of the first latch of a reached model that has another type than the first with a type.
pub fn find_mixed_edges<'d>(
    alloc: Global,
    design: &'d Design,
    reached: &[u32],
) -> Result<Option<Told<'d>>, AllocError>
    ensures { IfOk result (λ told. shown_of told ≡ other_edge (typed_of design.now reached.now)) }
{
    let latches = list_typed(alloc, design, reached)?;
    Ok(tell_other(latches.as_slice()))
}

/// The latches of some models that have a type.
fn list_typed<'d>(
    alloc: Global,
    design: &'d Design,
    reached: &[u32],
) -> Result<Vec<Typed<'d>>, AllocError>
    ensures { IfOk result (λ list. map latch_seen list.items ≡ typed_of design.now reached.now) }
{
    let mut list = Vec::new(alloc);
    for k in reached {
        push_model(&mut list, design, *k)?;
    }
    Ok(list)
}

/// Appends the latches of the model of a number that have a type.
#[tactic(auto, unfolding(crate::specs::Edges::typed_in))]
fn push_model<'d>(list: &mut Vec<Typed<'d>>, design: &'d Design, k: u32) -> Result<(), AllocError>
    ensures { OnOk result (map latch_seen list.new.items ≡ map latch_seen list.old.items ++ typed_in design.now k) }
{
    match model_at(design, k) {
        Some(model) => push_cells(list, model, model.cells.as_slice()),
        None => Ok(()),
    }
}

/// Appends those of some cells of a model that are latches with a type.
fn push_cells<'d>(
    list: &mut Vec<Typed<'d>>,
    model: &'d Model,
    cells: &'d [Cell],
) -> Result<(), AllocError>
    ensures { OnOk result (map latch_seen list.new.items ≡ map latch_seen list.old.items ++ flat_map (typed_cell model.now) cells.now) }
{
    for cell in cells {
        push_cell(list, model, cell)?;
    }
    Ok(())
}

/// Appends a cell of a model where it is a latch with a type.
fn push_cell<'d>(
    list: &mut Vec<Typed<'d>>,
    model: &'d Model,
    cell: &'d Cell,
) -> Result<(), AllocError>
    ensures { OnOk result (map latch_seen list.new.items ≡ map latch_seen list.old.items ++ typed_cell model.now cell.now) }
{
    if let Cell::Latch { out, kind, .. } = cell {
        let rises = match kind {
            LatchKind::Plain => return Ok(()),
            LatchKind::Rise => true,
            LatchKind::Fall => false,
        };
        list.push(Typed {
            model: model.name.as_slice(),
            out: out.as_slice(),
            rises,
        })?;
    }
    Ok(())
}

/// Tells of a latch that has another type than the first.
fn tell_other<'d>(latches: &[Typed<'d>]) -> Option<Told<'d>>
    ensures { shown_of result ≡ other_edge (map latch_seen latches.now) }
{
    if latches.is_empty() {
        return None;
    }
    match find_other(latches[0].rises, &latches[1..]) {
        Some(latch) => Some(Told::OfName {
            fault: NameFault::MixedEdges,
            model: latch.model,
            name: latch.out,
        }),
        None => None,
    }
}

/// The first latch that does not take its input at an edge.
fn find_other<'l, 'd>(rises: bool, latches: &'l [Typed<'d>]) -> Option<&'l Typed<'d>>
    ensures { option_map (λ (t : Bor Typed). latch_seen t.now) result ≡ find (λ t. not (same_edge rises t.rises)) (map latch_seen latches.now) }
{
    for latch in latches {
        if latch.rises != rises {
            return Some(latch);
        }
    }
    None
}

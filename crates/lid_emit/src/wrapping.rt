//! The emitted design.

ghost use Rattle.std.specs.Prelude.{◌≡◌, ◌⊎◌, ◌≤◌, Some, None, IfOk, IfErr};
ghost use Rattle.lid_emit_meaning.specs.declared.fault.EmitFault.TheVariants.{Memory};
ghost use Rattle.lid_emit_meaning.specs.Emitted.{CanBeEmitted, emit_fault, IsEmitted};
ghost use Rattle.lid_emit_meaning.specs.Sizes.{size};
ghost use Rattle.lid_stations.specs.Placed.{links_in};
ghost use Rattle.lid_stations.specs.Placements.{links_of};
ghost use Rattle.lid_emit_meaning.specs.Ports.{taken_name};

use crate::model::{design_of, make_model};
use crate::naming::{lay_out_all, name_cells};
use crate::refusals::refuse;
use lid_check::Checked;
use lid_design::Design;
use lid_emit_laws::{
    emitted_designs_run, wrapped_designs_are_small, wrapped_designs_have_short_texts,
};
use lid_emit_meaning::EmitFault;
use lid_emit_names::named_designs_are_accepted;
use lid_stations::{Placed, Placement};
use lid_system::System;
use std::alloc::{AllocError, Global};

/// The wrapped design of a system and its stations: one model with the name of the root, its ports, and
/// those of its environment.
///
/// # Errors
/// `NameTaken` with the first name that is taken, and else `TooBig` with a size over 16,384. `Memory` where there
/// is no memory.
pub fn emit(
    alloc: Global,
    checked: &Checked,
    system: &System,
    placement: &Placement,
) -> Result<Design, EmitFault>
    requires { CanBeEmitted checked.now system.now placement.now }
    ensures ok { IfOk result (λ e. (emit_fault checked.now (links_of system.now) placement.now ≡ None)
        × IsEmitted checked.now (links_of system.now) placement.now e) }
    ensures err { IfErr result (λ fault. (emit_fault checked.now (links_of system.now) placement.now ≡ Some fault) ⊎ (fault ≡ Memory)) }
{
    let placed = Placed { system, placement };
    if let Err(fault) = refuse(alloc, checked, &placed) {
        return Err(fault);
    }
    match wrap(alloc, checked, &placed) {
        Ok(design) => Ok(design),
        Err(_) => Err(EmitFault::Memory),
    }
}

/// The wrapped design, where no name is taken and the size is not too big.
fn wrap(alloc: Global, checked: &Checked, placed: &Placed<'_>) -> Result<Design, AllocError>
    requires can { CanBeEmitted checked.now placed.now.system placed.now.placement }
    requires free { taken_name checked.now ≡ None }
    requires small { size checked.now (links_in placed.now) placed.now.placement ≤ 16384 }
    ensures { IfOk result (IsEmitted checked.now (links_in placed.now) placed.now.placement) }
{
    let _ = checked.design();
    let all = lay_out_all(alloc, checked, placed)?;
    let cells = name_cells(alloc, checked, &all)?;
    let model = make_model(alloc, checked, cells)?;
    named_designs_are_accepted();
    emitted_designs_run();
    wrapped_designs_are_small();
    wrapped_designs_have_short_texts();
    design_of(alloc, model)
}

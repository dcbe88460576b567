//! The cells of what was laid out, under names.

ghost use Rattle.std.specs.Prelude.{◌+◌, ◌<◌, length, IfOk};
ghost use Rattle.lid_emit_cells.specs.Matches.{AreAllSmall};
ghost use Rattle.lid_design.specs.Columns.{root_inputs, root_outputs};
ghost use Rattle.lid_emit.specs.Steps.{AreCells, IsCircuitLaidOut};
ghost use Rattle.lid_net_law.specs.Agreement.{IsSystemOf};

use crate::prefix::free_prefix;
use lid_check::Checked;
use lid_design::Cell;
use lid_emit_cells::{All, Naming, make_cells};
use lid_emit_layout::lay_out;
use lid_emit_shells::make_shells;
use lid_stations::Placed;
use std::alloc::{AllocError, Global};

/// The stations, actors, shells and outside of a wrapped system.
pub(crate) fn lay_out_all(
    alloc: Global,
    checked: &Checked,
    placed: &Placed<'_>,
) -> Result<All, AllocError>
    requires of { IsSystemOf checked.now placed.now.system }
    requires few { length (root_inputs checked.now) + length (root_outputs checked.now) < 32768 }
    ensures { IfOk result (IsCircuitLaidOut checked.now placed.now.system placed.now.placement) }
{
    let _ = &placed.system;
    let shells = make_shells(alloc, checked, placed)?;
    lay_out(alloc, placed, shells)
}

/// The cells of what was laid out. Wires that are no ports have names with a prefix with which no name of
/// a port begins.
pub(crate) fn name_cells(
    alloc: Global,
    checked: &Checked,
    all: &All,
) -> Result<Vec<Cell>, AllocError>
    requires few { length (root_inputs checked.now) + length (root_outputs checked.now) < 32768 }
    requires sound { AreAllSmall all.now }
    ensures { IfOk result (λ cells. AreCells checked.now all.now cells.items) }
{
    let inputs = checked.inputs();
    let outputs = checked.outputs();
    let prefix = free_prefix(alloc, inputs, outputs)?;
    let naming = Naming {
        inputs,
        outputs,
        prefix: prefix.as_slice(),
    };
    make_cells(alloc, naming, all)
}

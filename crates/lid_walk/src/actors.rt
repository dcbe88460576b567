//! All actors.

ghost use Rattle.std.specs.Prelude.{IfOk};
ghost use Rattle.lid_shell_laws.specs.Setups.{Setup};
ghost use Rattle.lid_walk_machine.specs.Machine.{begun};
ghost use Rattle.lid_texts_packed.specs.Input.{input_of};
ghost use Rattle.lid_walk.specs.Setups.{IsSetupOf};
ghost use Rattle.lid_walk.specs.Actors.{AreActors};

use crate::movers::push_movers;
use crate::nodes::push_nodes;
use lid_shell::Actor;
use lid_stations::Placed;
use lid_texts_packed::InputRows;
use std::alloc::{AllocError, Global};

/// All actors of a run over input rows, listed or packed, which have not fired, in the order of their numbers: the
/// source, the shells, the sink, and then the movers in the order of the stations that they drain.
///
/// # Errors
/// Memory is wanting.
pub fn all_actors<'r>(
    alloc: Global,
    placed: &Placed<'_>,
    rows: InputRows<'r>,
) -> Result<Vec<Actor<'r>>, AllocError>
    ensures { IfOk result (λ actors. (m : Setup) → IsSetupOf m placed.now.system placed.now.placement (input_of rows.entry)
        → AreActors m begun actors.items) }
{
    let mut actors = Vec::new(alloc);
    push_nodes(alloc, placed, rows, &mut actors)?;
    push_movers(alloc, placed, rows, &mut actors)?;
    Ok(actors)
}

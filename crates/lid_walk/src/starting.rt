//! The board of a walk that has not begun.

ghost use Rattle.std.specs.Prelude.{◌≤◌, length, IfOk};
ghost use Rattle.std.specs.List.{AllByRecursion};
ghost use Rattle.lid_shell_laws.specs.Setups.{Setup, IsInputRow};
ghost use Rattle.lid_walk_machine.specs.Machine.{begun};
ghost use Rattle.lid_texts_packed.specs.Input.{input_of};
ghost use Rattle.lid_walk.specs.Setups.{IsSetupOf};
ghost use Rattle.lid_walk.specs.Walks.{IsBoard};

use crate::firsts::first_tokens;
use lid_station::PlainBoard;
use lid_stations::Placed;
use lid_texts_packed::InputRows;
use std::alloc::{AllocError, Global};

/// The board of a run, with the tokens with which its stations start.
pub(crate) fn board_of(
    alloc: Global,
    placed: &Placed<'_>,
    rows: InputRows<'_>,
) -> Result<PlainBoard, AllocError>
    requires few { length (input_of rows) ≤ 1000000 }
    requires wide { AllByRecursion (IsInputRow placed.now.system) (input_of rows) }
    ensures { IfOk result (λ board. (m : Setup) → IsSetupOf m placed.now.system placed.now.placement (input_of rows.entry)
        → IsBoard m begun board.pairs.items) }
{
    let firsts = first_tokens(alloc, placed, rows)?;
    PlainBoard::start(alloc, firsts.as_slice(), placed.placement.caps.as_slice())
}

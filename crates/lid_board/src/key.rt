//! The key of a board: what is known at its ends at the start.
//!
//! What is known exists for contracts alone. A seat of a table of one word, which is freed at once,
//! carries it to the table of the board.

ghost use Rattle.std.specs.Prelude.{◌≡◌, [], IfOk, length};
ghost use Rattle.lid_board.specs.Starts.{first_ends};
ghost use Rattle.lid_board.specs.declared.view.HandView.{HandView};

use crate::course::Course;
use crate::view::HandView;
use atomic_table::{Play, Seat, Table, TableRule};
use std::alloc::{AllocError, Global};
use std::marker::{Brand, PhantomData};

/// A rule that always holds.
struct Anything;

impl TableRule<(), HandView, ()> for Anything {
    ghost holds = { λ _ _. Unit {0} };

    ghost first = { λ _. record { ends = []; steps = [] } };
}

/// What is known at the start.
trait Sighting {
    ghost sight: { HandView };
}

impl Sighting for Brand {
    ghost sight = { record { ends = []; steps = [] } };
}

struct Sees<J> {
    sighting: PhantomData<J>,
}

impl<J: Sighting> Play<(), HandView> for Sees<J> {
    ghost then = { λ _ _ _ n. n.0 ≡ J.sight };
}

fn key_as<J: Sighting, C: Course>(
    alloc: Global,
    _firsts: &[Option<u32>],
    _caps: &[u32],
    _course: &C,
) -> Result<Seat<(), HandView>, AllocError>
    ensures { IfOk result (λ seat. seat.me.0 ≡ J.sight) }
{
    let words = [0u64];
    let (table, _seat) = Table::<(), HandView, (), Anything, Global>::of_words(
        alloc,
        words.as_slice(),
        &(),
    )?;
    Ok(table.shared.load_new_seat::<Sees<J>>(0).1)
}

/// A seat that knows what is known at the start.
pub(crate) fn key_of<C: Course>(
    alloc: Global,
    firsts: &[Option<u32>],
    caps: &[u32],
    course: &C,
) -> Result<Seat<(), HandView>, AllocError>
    ensures ends { IfOk result (λ seat. seat.me.0.ends ≡ first_ends firsts.now caps.now (C.streams course.now)) }
    ensures steps { IfOk result (λ seat. seat.me.0.steps ≡ []) }
{
    key_as::<Brand, C>(alloc, firsts, caps, course)
}

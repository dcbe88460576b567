//! How workers get their hands.

ghost use Rattle.std.specs.Prelude.{◌≡◌, ◌==◌, ◌&&◌, ◌+◌, ◌<◌, ◌≤◌, ◌^◌, ◌*◌, ℕ, nat_lt, length, IfOk, OnOk, ◌++◌, ◌∷◌, [], if◌then◌else◌};
ghost use Rattle.lid_board.specs.Owners.{IsOf, IsOwned, ends_of, start_ends};
ghost use Rattle.lid_board.specs.Parting.{end_number, is_chosen};
ghost use Rattle.lid_free_crew.specs.Shares.{holder};
ghost use Rattle.lid_free_crew.specs.Crews.{AreUnseen, HasGivenEnds, HasNone, IsHired, AreHired};

use crate::worker::Worker;
use lid_base::Tally;
use lid_board::{Board, Hand};
use lid_station::{End, Side};
use std::alloc::{AllocError, Global};

/// The end with this number.
fn end_of(number: u32) -> End
    ensures { end_number result ≡ number }
{
    let station = number / 2;
    if number % 2 == 0 {
        End {
            station,
            side: Side::Fill,
        }
    } else {
        End {
            station,
            side: Side::Drain,
        }
    }
}

/// Appends an end, where it passes.
fn push_where(ends: &mut Vec<End>, end: End, passes: bool) -> Result<(), AllocError>
    ensures { OnOk result (ends.new.items ≡ ends.old.items ++ (if passes then end ∷ [] else [])) }
{
    if passes {
        ends.push(end)?;
    }
    Ok(())
}

/// The ends that fall to a worker.
fn ends_for(
    alloc: Global,
    owners: &[u32],
    workers: u32,
    number: u32,
) -> Result<Vec<End>, AllocError>
    requires some { 0 < workers }
    requires many { length owners.now < 2 ^ 32 }
    ensures { IfOk result (λ ends. (end : ℕ) → is_chosen ends.items end ≡ (nat_lt end (length owners.now) && holder workers owners.now end == number)) }
{
    let mut ends = Vec::new(alloc);
    for end in 0..owners.len() as u32 {
        let passes = owners[end as usize] % workers == number;
        push_where(&mut ends, end_of(end), passes)?;
    }
    Ok(ends)
}

/// The worker of a number, with its ends from the hand that keeps all that are not yet given.
fn new_worker<'r>(
    alloc: Global,
    board: &Board,
    keeper: &mut Hand,
    owners: &[u32],
    workers: u32,
    number: u32,
) -> Result<Worker<'r>, AllocError>
    requires of { IsOf keeper.old board.now }
    requires some { 0 < workers }
    requires few { length owners.now < 2 ^ 32 }
    requires many { length owners.now ≡ length (start_ends board.now) }
    requires there { (end : ℕ) → end < length (start_ends board.now) → IsOwned (start_ends board.now) end }
    requires unseen { AreUnseen (start_ends board.now) }
    requires given { HasGivenEnds workers owners.now (start_ends board.now) number keeper.old }
    ensures of { IsOf keeper.new board.now }
    ensures given { OnOk result (HasGivenEnds workers owners.now (start_ends board.now) (number + 1) keeper.new) }
    ensures hired { IfOk result (IsHired board.now workers owners.now (start_ends board.now) number) }
{
    let ends = ends_for(alloc, owners, workers, number)?;
    let hand = board.split(keeper, ends.as_slice())?;
    Ok(Worker {
        number,
        actors: Vec::new(alloc),
        hand,
        tally: Tally {
            turns: 0,
            fired: 0,
            voids: 0,
            stops: 0,
            dones: 0,
        },
    })
}

/// So many workers without actors, each with a hand that has its share of the ends. The owner of each end is the
/// number of an actor, and the end falls to the worker of that number mod the number of workers. All ends are the
/// keeper's, and nothing was seen there.
///
/// # Errors
/// Memory is wanting.
pub fn hire<'r>(
    alloc: Global,
    board: &Board,
    keeper: &mut Hand,
    owners: &[u32],
    workers: u32,
) -> Result<Vec<Worker<'r>>, AllocError>
    requires of { IsOf keeper.old board.now }
    requires some { 0 < workers }
    requires few { length owners.now < 2 ^ 32 }
    requires many { length owners.now ≡ length (start_ends board.now) }
    requires there { (end : ℕ) → end < length (start_ends board.now) → IsOwned (start_ends board.now) end }
    requires unseen { AreUnseen (start_ends board.now) }
    requires all { ends_of keeper.old ≡ start_ends board.now }
    ensures of { IsOf keeper.new board.now }
    ensures none { OnOk result (HasNone keeper.new) }
    ensures hired { IfOk result (λ crew. AreHired board.now workers owners.now (start_ends board.now) workers crew.items) }
{
    let mut crew = Vec::new(alloc);
    for number in 0..workers {
        crew.push(new_worker(alloc, board, keeper, owners, workers, number)?)?;
    }
    Ok(crew)
}

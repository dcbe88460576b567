//! Movers.

ghost use Rattle.std.specs.Prelude.{◌≡◌, ◌≤◌, ◌+◌, [], ◌∷◌, ℕ, length};
ghost use Rattle.std.specs.List.{AllByRecursion};
ghost use Rattle.lid_system.specs.Systems.{IsWellFormed};
ghost use Rattle.lid_stations.specs.Placements.{Fits};
ghost use Rattle.lid_walk_machine.specs.Setups.{plan};
ghost use Rattle.lid_shell_laws.specs.Setups.{IsInputRow};
ghost use Rattle.lid_shell.specs.Steps.{CanTurn};

use lid_base::{Answer, Items};
use lid_shell::{Actor, TurnEnd};
use lid_shell_laws::movers_move_tokens_on;
use lid_station::{PlainBoard, Stations};
use lid_stations::Placement;
use lid_system::{System, systems_have_one_table};
use lid_tests_fixtures::{ONE, are_rows, placement_of, rows_of, system_of};
use std::alloc::Global;

/// Whether an actor ends a turn so, and answers so to the next step.
fn turns_so<B: Stations>(actor: &mut Actor<'_>, board: &mut B, end: TurnEnd, next: Answer) -> bool
    requires { CanTurn actor.old (B.ends board.old) (B.stands board.old) }
{
    actor.turn(board) == end && actor.step(board) == next && actor.at_rest()
}

/// Whether the mover that drains station 1 of the register, which has two relay stations to the sink, finds no token
/// on a board without tokens.
fn mover_waits(alloc: Global, system: &System, placement: &Placement, rows: &[Items<bool>]) -> bool
    requires system { IsWellFormed system.now }
    requires fits { Fits system.now placement.now }
    requires relays { placement.now.relays ≡ 0 ∷ 2 ∷ [] }
    requires caps { placement.now.caps ≡ 2 ∷ 2 ∷ 2 ∷ 2 ∷ [] }
    requires few { length rows.now ≤ 1000000 }
    requires wide { AllByRecursion (IsInputRow system.now) rows.now }
{
    systems_have_one_table();
    movers_move_tokens_on();
    let Ok(mut board) = PlainBoard::start(alloc, &[None, None, None, None], &[2, 2, 2, 2]) else {
        return false;
    };
    let mut mover = Actor::mover(alloc, 1, 2, rows.len() as u64);
    turns_so(
        &mut mover,
        &mut board,
        TurnEnd::Void {
            station: 1,
            word: 0,
        },
        Answer::Void {
            station: 1,
            word: 0,
        },
    )
}

/// Whether the mover of the register waits, in a run of two rows.
fn register_mover_waits(alloc: Global) -> bool {
    let Some(system) = system_of(alloc, ONE) else {
        return false;
    };
    let Some(rows) = rows_of(alloc, b"10", 1) else {
        return false;
    };
    let Some(placement) = placement_of(alloc, &[0, 2], &[2, 2, 2, 2]) else {
        return false;
    };
    system.channels.len() == 2
        && are_rows(&system, rows.bits.as_slice())
        && mover_waits(alloc, &system, &placement, rows.bits.as_slice())
}

#[test]
fn a_mover_waits_at_an_empty_station(rt: HostRuntime) {
    assert!(rt; register_mover_waits(rt.alloc()));
}

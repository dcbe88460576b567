//! `walk`: what actors answer along a schedule.

ghost use Rattle.std.specs.Prelude.{◌≡◌, ◌++◌, ◌<◌, IfOk, OnOk};
ghost use Rattle.std.specs.List.{AllByRecursion};
ghost use Rattle.lid_walk_machine.specs.Plans.{actors_of};
ghost use Rattle.lid_walk_machine.specs.Setups.{plan};
ghost use Rattle.lid_shell_laws.specs.Setups.{Setup};
ghost use Rattle.lid_walk_machine.specs.Machine.{State, answers, after_all};
ghost use Rattle.lid_top_script.specs.Scripts.{schedule_script};
ghost use Rattle.lid_top_script.specs.Whole.{RunsOn};
ghost use Rattle.lid_top_script.specs.Walked.{answer_lines, IsWalkText};
ghost use Rattle.lid_stations.specs.Placements.{links_of};
ghost use Rattle.lid_stations.specs.Stations.{actor_count};
ghost use Rattle.lid_walk.specs.Walks.{Walks};

use crate::run::Fed;
use lid_base::Shelf;
use lid_texts::{print_answer, print_rows};
use lid_texts_packed::InputRows;
use lid_top_script::{ScheduleText, Stop, Wrapped, read_file};
use lid_walk::Walk;
use std::alloc::{AllocError, Global};

/// How many actors there are: all nodes, and a mover for each station but the last of each channel.
fn actors_of(wrapped: &Wrapped) -> u32
    ensures { result ≡ actor_count (links_of wrapped.now.system) wrapped.now.placement }
{
    let placement = &wrapped.placement;
    (wrapped.system.nodes.len() + (placement.caps.len() - placement.relays.len())) as u32
}

/// Walks on along a schedule, and appends a line for each step.
fn walk_on(walk: &mut Walk<'_>, schedule: &[u32], into: &mut Vec<u8>) -> Result<(), AllocError>
    requires { (m : Setup) × (st : State) × Walks m st walk.old × AllByRecursion (λ v. v < actors_of (plan m)) schedule.now }
    ensures walks { OnOk result ((m : Setup) (st : State) → Walks m st walk.old → Walks m (after_all (plan m) st schedule.now) walk.new) }
    ensures lines { OnOk result ((m : Setup) (st : State) → Walks m st walk.old → into.new.items
        ≡ into.old.items ++ answer_lines schedule.now (answers (plan m) st schedule.now)) }
{
    for actor in schedule {
        let answer = walk.step(*actor);
        print_answer(*actor, &answer, into)?;
    }
    Ok(())
}

/// The text of a walk along a schedule.
fn lines_text(alloc: Global, fed: &Fed<'_>, schedule: &[u32]) -> Result<Vec<u8>, AllocError>
    requires { AllByRecursion (λ v. v < actor_count (links_of fed.now.wrapped.now.system) fed.now.wrapped.now.placement) schedule.now }
    ensures { IfOk result (λ text. IsWalkText fed.now.wrapped.now.design (links_of fed.now.wrapped.now.system)
        fed.now.wrapped.now.placement fed.now.rows.now.rows schedule.now text.items) }
{
    let wrapped = fed.wrapped;
    let _ = wrapped.checked.design();
    let rows = InputRows::Packed(fed.rows);
    let mut walk = Walk::start_over(alloc, &wrapped.system, &wrapped.placement, rows)?;
    let mut text = Vec::new(alloc);
    walk_on(&mut walk, schedule, &mut text)?;
    print_rows(&walk.into_rows(), &mut text)?;
    Ok(text)
}

/// What `walk` writes once the rows are read.
pub(crate) fn walked_text<'a, S: Shelf>(
    alloc: Global,
    shelf: &mut S,
    fed: &Fed<'_>,
    schedule: &'a str,
) -> Result<Vec<u8>, Stop<'a>>
    ensures { RunsOn S.whole S.held S.fetches S.faults shelf.old shelf.new (schedule_script fed.now.wrapped.now.design (links_of fed.now.wrapped.now.system)
        fed.now.wrapped.now.placement schedule.now fed.now.rows.now.rows) result }
{
    let actors = actors_of(fed.wrapped);
    match read_file(alloc, shelf, schedule, &ScheduleText { actors }) {
        Ok(list) => match lines_text(alloc, fed, list.as_slice()) {
            Ok(text) => Ok(text),
            Err(_) => Err(Stop::Memory),
        },
        Err(stop) => Err(stop),
    }
}

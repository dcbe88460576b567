ghost use Rattle.std.specs.Prelude.{◌≡◌, IfOk, List, ℕ};
ghost use Rattle.lid_design.specs.Models.{AreReached};
ghost use Rattle.lid_check_rules.specs.Acceptance.{fault_after_recursion};
ghost use Rattle.lid_check_models.specs.Late.{after_names, after_edges};
ghost use Rattle.lid_check_rules.specs.Told.{shown_of};

use crate::limits::find_limit;
use lid_check_ports::{InstRule, Ports};
use lid_check_rules::{
    Told, find_by_names, find_by_rules, find_mixed_edges, find_root_logic, find_two_clocks,
};
use std::alloc::{AllocError, Global};

/// Tells of the first condition after recursion that applies.
pub fn find_late<'d>(alloc: Global, ports: &Ports<'d>) -> Result<Option<Told<'d>>, AllocError>
    ensures { IfOk result (λ told. (ks : List ℕ) → AreReached ports.now ks → shown_of told ≡ fault_after_recursion ports.now ks) }
{
    let reached = ports.survey().reached();
    let rules = [
        InstRule::UnknownFormal,
        InstRule::FormalTwice,
        InstRule::Unbound,
    ];
    if let Some(told) = find_by_rules(alloc, ports, reached, &rules)? {
        return Ok(Some(told));
    }
    match find_by_names(alloc, ports, reached)? {
        Some(told) => Ok(Some(told)),
        None => find_after_names(alloc, ports, reached),
    }
}

/// Tells of clocks of the root, edges, logic of the root and limits, in this order.
fn find_after_names<'d>(
    alloc: Global,
    ports: &Ports<'d>,
    reached: &[u32],
) -> Result<Option<Told<'d>>, AllocError>
    ensures { IfOk result (λ told. shown_of told ≡ after_names ports.now reached.now) }
{
    if let Some(told) = find_two_clocks(alloc, ports)? {
        return Ok(Some(told));
    }
    match find_mixed_edges(alloc, ports.survey().design(), reached)? {
        Some(told) => Ok(Some(told)),
        None => find_after_edges(alloc, ports),
    }
}

/// Tells of logic of the root and of limits, in this order.
fn find_after_edges<'d>(alloc: Global, ports: &Ports<'d>) -> Result<Option<Told<'d>>, AllocError>
    ensures { IfOk result (λ told. shown_of told ≡ after_edges ports.now) }
{
    match find_root_logic(ports) {
        Some(told) => Ok(Some(told)),
        None => find_limit(alloc, ports.survey()),
    }
}

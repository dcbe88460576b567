//! A topological order of some numbers, made longer by those that read none of the others.

ghost use Rattle.std.specs.Prelude.{◌≡◌, ◌<◌, ◌≤◌, length, IfOk, OnOk};
ghost use Rattle.std.specs.Bool.{MatchBool};
ghost use Rattle.lid_check_digraph.specs.PartialOrders.{marked, IsPartialOrder, IsStuckAt, IsStuck, AreBelow};

use crate::adjacency::{Digraph, is_any};
use std::alloc::AllocError;

/// Takes a number into the order where it is left and nothing that it reads is. Answers whether it did.
fn take_up(
    order: &mut Vec<u32>,
    left: &mut [bool],
    graph: &Digraph<'_>,
    k: u32,
) -> Result<bool, AllocError>
    requires part { IsPartialOrder graph.now.reads.now order.old.items left.old }
    requires within { k < length graph.now.reads.now }
    ensures part { OnOk result (IsPartialOrder graph.now.reads.now order.new.items left.new) }
    ensures took { IfOk result (λ took. MatchBool took (marked left.new < marked left.old) ((left.new ≡ left.old) × IsStuckAt graph.now.reads.now left.old k)) }
{
    if !left[k as usize] || is_any(left, graph.reads_of(k)) {
        return Ok(false);
    }
    order.push(k)?;
    left[k as usize] = false;
    Ok(true)
}

/// Takes numbers into the order, one after another, where that can be.
pub(crate) fn take_all(
    order: &mut Vec<u32>,
    left: &mut [bool],
    graph: &Digraph<'_>,
    numbers: &[u32],
) -> Result<(), AllocError>
    requires part { IsPartialOrder graph.now.reads.now order.old.items left.old }
    requires within { AreBelow (length graph.now.reads.now) numbers.now }
    ensures { OnOk result (IsPartialOrder graph.now.reads.now order.new.items left.new) }
{
    for k in numbers {
        let _ = take_up(order, left, graph, *k)?;
    }
    Ok(())
}

/// Goes over all numbers once, and takes those that it can. Answers whether it took one.
pub(crate) fn sweep(
    order: &mut Vec<u32>,
    left: &mut [bool],
    graph: &Digraph<'_>,
) -> Result<bool, AllocError>
    requires part { IsPartialOrder graph.now.reads.now order.old.items left.old }
    ensures part { OnOk result (IsPartialOrder graph.now.reads.now order.new.items left.new) }
    ensures took { IfOk result (λ took. MatchBool took (marked left.new < marked left.old) (IsStuck graph.now.reads.now left.new)) }
    ensures no_more { OnOk result (marked left.new ≤ marked left.old) }
{
    let mut took = false;
    for k in 0..graph.count() {
        if take_up(order, left, graph, k)? {
            took = true;
        }
    }
    Ok(took)
}

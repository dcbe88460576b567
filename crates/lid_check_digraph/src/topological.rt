//! Topological order: an order of all numbers, or the least number on a closed walk.

ghost use Rattle.std.specs.Prelude.{◌≡◌, ◌+◌, ◌<◌, ◌≤◌, ℕ, true, false, length, IfOk, OnOk};
ghost use Rattle.std.specs.Option.{MatchOption};
ghost use Rattle.lid_check_digraph.specs.Graphs.{IsOnLoop, HasNoLoop, flag};
ghost use Rattle.lid_check_digraph.specs.PartialOrders.{marked, IsPartialOrder, IsStuck, AreBelow, MarksLoops, SparesLoops};
ghost use Rattle.lid_check_digraph.specs.Traversals.{IsTraversal};
ghost use Rattle.lid_check_digraph.specs.Results.{IsLeastOnLoop, IsFound};

use crate::adjacency::Digraph;
use crate::depth_first::{Traversal, depth_first_search};
use crate::partial_order::{sweep, take_all};
use crate::reachability::is_on_loop;
use crate::tarjan::looping;
use lid_base::Items;
use std::alloc::{AllocError, Global};

/// What the search for an order finds.
#[derive(Drop)]
pub enum Found {
    /// All numbers, each after all that it reads.
    Order(Items<u32>),
    /// The least number on a closed walk.
    Loop(u32),
}

/// A part of an order, and whether each number is left out of it.
#[derive(Drop)]
struct Taken {
    order: Vec<u32>,
    left: Vec<bool>,
}

/// Takes the numbers into the order that can be, in rounds: as Kahn's algorithm does, but by whole sweeps. After
/// the numbers of a postorder one sweep finds none.
fn take_rounds(
    order: &mut Vec<u32>,
    left: &mut [bool],
    graph: &Digraph<'_>,
) -> Result<(), AllocError>
    requires { IsPartialOrder graph.now.reads.now order.old.items left.old }
    ensures part { OnOk result (IsPartialOrder graph.now.reads.now order.new.items left.new) }
    ensures stuck { OnOk result (IsStuck graph.now.reads.now left.new) }
{
    let mut took = true;
    while took {
        took = sweep(order, left, graph)?;
    }
    Ok(())
}

/// The order of all numbers that can be taken, those of the list first.
fn taken_of(alloc: Global, graph: &Digraph<'_>, numbers: &[u32]) -> Result<Taken, AllocError>
    requires numbers { AreBelow (length graph.now.reads.now) numbers.now }
    ensures part { IfOk result (λ taken. IsPartialOrder graph.now.reads.now taken.order.items taken.left.items) }
    ensures stuck { IfOk result (λ taken. IsStuck graph.now.reads.now taken.left.items) }
{
    let mut order = Vec::with_capacity(alloc, graph.reads.len())?;
    let mut left = Vec::from_elem(alloc, true, graph.reads.len())?;
    take_all(&mut order, left.as_mut_slice(), graph, numbers)?;
    take_rounds(&mut order, left.as_mut_slice(), graph)?;
    Ok(Taken { order, left })
}

/// Marks what lies on no closed walk: what is not left, and what is not told to lie on one.
fn cut_of(alloc: Global, left: &[bool], looping: &[bool]) -> Result<Vec<bool>, AllocError>
    requires { length looping.now ≡ length left.now }
    ensures count { IfOk result (λ cut. length cut.items ≡ length left.now) }
    ensures cut { IfOk result (λ cut. (k : ℕ) → flag left.now k ≡ true → flag looping.now k ≡ true → flag cut.items k ≡ false) }
{
    let mut cut = Vec::from_elem(alloc, false, left.len())?;
    for k in 0..left.len() {
        cut[k] = !left[k] || !looping[k];
    }
    Ok(cut)
}

/// The least number on a closed walk, where there is one. Numbers that are cut are passed over, and each
/// that is found to lie on none is cut.
///
/// # Errors
/// Where there is no memory.
fn least_on_loop(
    alloc: Global,
    graph: &Digraph<'_>,
    cut: &mut [bool],
) -> Result<Option<u32>, AllocError>
    requires count { length cut.old ≡ length graph.now.reads.now }
    requires cut { SparesLoops graph.now.reads.now cut.old }
    ensures { IfOk result (λ found. MatchOption found (HasNoLoop graph.now.reads.now) (IsLeastOnLoop graph.now.reads.now)) }
{
    for k in 0..graph.count() {
        if !cut[k as usize] {
            if is_on_loop(alloc, graph, cut, k)? {
                return Ok(Some(k));
            }
            cut[k as usize] = true;
        }
    }
    Ok(None)
}

/// The least number on a closed walk, where there is one, and all on closed walks are left.
fn least_left(
    alloc: Global,
    graph: &Digraph<'_>,
    traversal: &Traversal,
    left: &[bool],
) -> Result<u32, AllocError>
    requires traversal { IsTraversal (length graph.now.reads.now) traversal.now }
    requires count { length left.now ≡ length graph.now.reads.now }
    requires loops { MarksLoops graph.now.reads.now left.now }
    requires some { HasNoLoop graph.now.reads.now → ⊥ }
    ensures { IfOk result (IsLeastOnLoop graph.now.reads.now) }
{
    let looping = looping(alloc, graph, traversal)?;
    let mut cut = cut_of(alloc, left, looping.as_slice())?;
    match least_on_loop(alloc, graph, cut.as_mut_slice())? {
        Some(k) => Ok(k),
        None => unreachable!(),
    }
}

/// An order of all numbers, in which each stands after all that it reads, or else the least number on a
/// closed walk.
///
/// It takes time in the numbers and reads, which is measured and not proved.
///
/// # Errors
/// Where there is no memory.
pub fn find_order(alloc: Global, graph: &Digraph<'_>) -> Result<Found, AllocError>
    ensures { IfOk result (IsFound graph.now.reads.now) }
{
    let traversal = depth_first_search(alloc, graph)?;
    let Taken { order, left } = taken_of(alloc, graph, traversal.postorder.as_slice())?;
    if order.len() == graph.reads.len() {
        return Ok(Found::Order(Items::from_vec(order)));
    }
    let k = least_left(alloc, graph, &traversal, left.as_slice())?;
    Ok(Found::Loop(k))
}

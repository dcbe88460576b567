//! Reachability: what reaches a number, and what is reached from some.

ghost use Rattle.std.specs.Prelude.{◌≡◌, ◌<◌, ◌↔◌, ℕ, true, false, [], ◌∷◌, length, replicate, IsTrue, IfOk, OnOk};
ghost use Rattle.lid_base.specs.Lists.{Among};
ghost use Rattle.lid_check_digraph.specs.Graphs.{IsOnLoop, IsOrder, reads_at, flag, IsReaching, IsReached};
ghost use Rattle.lid_check_digraph.specs.PartialOrders.{AreBelow, SparesLoops};
ghost use Rattle.lid_check_digraph.specs.Searches.{followed, Marks, IsSearch, IsFeeding};

use crate::adjacency::{Digraph, is_any};
use lid_base::Items;
use std::alloc::{AllocError, Global};

/// Marks a number. Where it is new, it is still to be looked at.
fn mark_one(seen: &mut [bool], todo: &mut Vec<u32>, number: u32) -> Result<(), AllocError>
    requires { number < length seen.old }
    ensures { OnOk result (Marks (number ∷ []) seen.old todo.old.items seen.new todo.new.items) }
{
    if seen[number as usize] {
        return Ok(());
    }
    seen[number as usize] = true;
    todo.push(number)?;
    Ok(())
}

/// Marks numbers. Those that are new are still to be looked at.
fn mark(seen: &mut [bool], todo: &mut Vec<u32>, numbers: &[u32]) -> Result<(), AllocError>
    requires { AreBelow (length seen.old) numbers.now }
    ensures { OnOk result (Marks numbers.now seen.old todo.old.items seen.new todo.new.items) }
{
    for number in numbers {
        mark_one(seen, todo, *number)?;
    }
    Ok(())
}

/// Marks what a number reads, where the number is not cut.
fn look_at(
    seen: &mut [bool],
    todo: &mut Vec<u32>,
    graph: &Digraph<'_>,
    cut: &[bool],
    c: u32,
) -> Result<(), AllocError>
    requires seen { length seen.old ≡ length graph.now.reads.now }
    requires cut { length cut.now ≡ length graph.now.reads.now }
    requires within { c < length graph.now.reads.now }
    ensures { OnOk result (Marks (followed graph.now.reads.now cut.now c) seen.old todo.old.items seen.new todo.new.items) }
{
    if cut[c as usize] {
        return Ok(());
    }
    mark(seen, todo, graph.reads_of(c))
}

/// Marks what reaches the end, with nothing marked before.
fn search_all(
    seen: &mut [bool],
    todo: &mut Vec<u32>,
    graph: &Digraph<'_>,
    cut: &[bool],
    end: u32,
) -> Result<(), AllocError>
    requires seen { seen.old ≡ replicate (length graph.now.reads.now) false }
    requires todo { todo.old.items ≡ [] }
    requires cut { length cut.now ≡ length graph.now.reads.now }
    requires within { end < length graph.now.reads.now }
    ensures { OnOk result (IsSearch graph.now.reads.now cut.now end seen.new []) }
{
    look_at(seen, todo, graph, cut, end)?;
    while let Some(c) = todo.pop() {
        look_at(seen, todo, graph, cut, c)?;
    }
    Ok(())
}

/// Marks the numbers from which a walk with an edge leads to `end` past the cut.
///
/// # Errors
/// Where there is no memory.
fn search_back(
    alloc: Global,
    graph: &Digraph<'_>,
    cut: &[bool],
    end: u32,
) -> Result<Vec<bool>, AllocError>
    requires cut { length cut.now ≡ length graph.now.reads.now }
    requires within { end < length graph.now.reads.now }
    ensures count { IfOk result (λ seen. length seen.items ≡ length graph.now.reads.now) }
    ensures exact { IfOk result (λ seen. (a : ℕ) → (flag seen.items a ≡ true) ↔ IsFeeding graph.now.reads.now cut.now a end) }
{
    let mut seen = Vec::from_elem(alloc, false, graph.reads.len())?;
    let mut todo = Vec::new(alloc);
    search_all(seen.as_mut_slice(), &mut todo, graph, cut, end)?;
    Ok(seen)
}

/// Whether a closed walk leads through a number. Of the numbers on closed walks none may be cut.
///
/// # Errors
/// Where there is no memory.
pub(crate) fn is_on_loop(
    alloc: Global,
    graph: &Digraph<'_>,
    cut: &[bool],
    k: u32,
) -> Result<bool, AllocError>
    requires count { length cut.now ≡ length graph.now.reads.now }
    requires cut { SparesLoops graph.now.reads.now cut.now }
    requires within { k < length graph.now.reads.now }
    ensures { IfOk result (λ on. IsTrue on ↔ IsOnLoop graph.now.reads.now k) }
{
    let seen = search_back(alloc, graph, cut, k)?;
    Ok(seen[k as usize])
}

/// The numbers from which a walk, perhaps without an edge, leads to `end`: entry a tells it of a. The
/// reads of a number that is cut are not followed. It takes time in the numbers and reads, which is not proved.
///
/// # Errors
/// Where there is no memory.
pub fn find_reaching(
    alloc: Global,
    graph: &Digraph<'_>,
    cut: &[bool],
    end: u32,
) -> Result<Items<bool>, AllocError>
    requires cut { length cut.now ≡ length graph.now.reads.now }
    requires within { end < length graph.now.reads.now }
    ensures count { IfOk result (λ found. length found ≡ length graph.now.reads.now) }
    ensures exact { IfOk result (λ found. (a : ℕ) → IsTrue (flag found a) ↔ IsReaching graph.now.reads.now cut.now a end) }
{
    let mut seen = search_back(alloc, graph, cut, end)?;
    seen[end as usize] = true;
    Ok(Items::from_vec(seen))
}

/// Tells whether a number is reached, from what is told of the numbers that it reads.
fn reach_one(reached: &mut [bool], graph: &Digraph<'_>, cut: &[bool], starts: &[bool], k: u32)
    requires reached { length reached.old ≡ length graph.now.reads.now }
    requires cut { length cut.now ≡ length graph.now.reads.now }
    requires starts { length starts.now ≡ length graph.now.reads.now }
    requires within { k < length graph.now.reads.now }
    requires earlier { (b : ℕ) → Among b (reads_at graph.now.reads.now k) → (flag reached.old b ≡ true) ↔ IsReached graph.now.reads.now cut.now starts.now b }
    ensures here { (flag reached.new k ≡ true) ↔ IsReached graph.now.reads.now cut.now starts.now k }
    ensures others { (c : ℕ) → (c ≡ k → ⊥) → flag reached.new c ≡ flag reached.old c }
{
    let start = starts[k as usize];
    let shut = cut[k as usize];
    let now = start || (!shut && is_any(reached, graph.reads_of(k)));
    reached[k as usize] = now;
}

/// Tells of each number whether it is reached, along an order.
fn reach_all(
    reached: &mut [bool],
    graph: &Digraph<'_>,
    order: &[u32],
    cut: &[bool],
    starts: &[bool],
)
    requires reached { length reached.old ≡ length graph.now.reads.now }
    requires order { IsOrder graph.now.reads.now order.now }
    requires cut { length cut.now ≡ length graph.now.reads.now }
    requires starts { length starts.now ≡ length graph.now.reads.now }
    ensures { (k : ℕ) → Among k order.now → (flag reached.new k ≡ true) ↔ IsReached graph.now.reads.now cut.now starts.now k }
{
    for k in order {
        reach_one(reached, graph, cut, starts, *k);
    }
}

/// The numbers to which a walk, perhaps without an edge, leads from one of the starts: entry k tells it
/// of k. The reads of a number that is cut are not followed. It goes over the order once, which is not proved.
///
/// # Errors
/// Where there is no memory.
pub fn find_reached(
    alloc: Global,
    graph: &Digraph<'_>,
    order: &[u32],
    cut: &[bool],
    starts: &[bool],
) -> Result<Items<bool>, AllocError>
    requires order { IsOrder graph.now.reads.now order.now }
    requires cut { length cut.now ≡ length graph.now.reads.now }
    requires starts { length starts.now ≡ length graph.now.reads.now }
    ensures count { IfOk result (λ found. length found ≡ length graph.now.reads.now) }
    ensures exact { IfOk result (λ found. (k : ℕ) → k < length graph.now.reads.now
        → IsTrue (flag found k) ↔ IsReached graph.now.reads.now cut.now starts.now k) }
{
    let mut reached = Vec::from_elem(alloc, false, graph.reads.len())?;
    reach_all(reached.as_mut_slice(), graph, order, cut, starts);
    Ok(Items::from_vec(reached))
}

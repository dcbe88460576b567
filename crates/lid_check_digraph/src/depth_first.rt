//! Depth-first search: all numbers in an order in which most stand after what they read.

ghost use Rattle.std.specs.Prelude.{◌≡◌, ◌+◌, ◌*◌, ◌<◌, ◌≤◌, false, length, slice_index, IfOk, OnOk, vec_len};
ghost use Rattle.lid_check_digraph.specs.Graphs.{flag};
ghost use Rattle.lid_check_digraph.specs.PartialOrders.{unmarked, AreBelow, AreVisitsBelow};
ghost use Rattle.lid_check_digraph.specs.Traversals.{IsTraversal};

use crate::adjacency::Digraph;
use std::alloc::{AllocError, Global};

/// A number that is being visited.
#[derive(Clone, Copy)]
pub(crate) struct Visit {
    pub(crate) number: u32,
    /// How many of its reads have been looked at.
    pub(crate) next: usize,
}

/// The numbers that were visited.
#[derive(Drop)]
pub(crate) struct Traversal {
    /// In the order in which they were entered.
    pub(crate) preorder: Vec<u32>,
    /// In the order in which their visits ended.
    pub(crate) postorder: Vec<u32>,
}

/// The place of the first number, from a place on, that has not been entered, or the place after the
/// last.
fn next_unvisited(entered: &[bool], numbers: &[u32], from: usize) -> usize
    requires { AreBelow (length entered.now) numbers.now }
    ensures { result < length numbers.now → flag entered.now (slice_index numbers.now result) ≡ false }
{
    let mut next = from;
    while next < numbers.len() && entered[numbers[next] as usize] {
        next += 1;
    }
    next
}

/// Enters a number, whose visit begins.
fn enter(
    entered: &mut [bool],
    stack: &mut Vec<Visit>,
    traversal: &mut Traversal,
    number: u32,
) -> Result<(), AllocError>
    requires within { number < length entered.old }
    requires new { flag entered.old number ≡ false }
    requires stack { AreVisitsBelow (length entered.old) stack.old.items }
    requires traversal { IsTraversal (length entered.old) traversal.old }
    ensures stack { OnOk result (AreVisitsBelow (length entered.old) stack.new.items) }
    ensures traversal { OnOk result (IsTraversal (length entered.old) traversal.new) }
    ensures less { OnOk result (2 * unmarked entered.new + vec_len stack.new < 2 * unmarked entered.old + vec_len stack.old) }
{
    entered[number as usize] = true;
    traversal.preorder.push(number)?;
    stack.push(Visit { number, next: 0 })?;
    Ok(())
}

/// Goes on with a visit: enters the next number that it reads, or ends the visit.
fn visit_next(
    entered: &mut [bool],
    stack: &mut Vec<Visit>,
    traversal: &mut Traversal,
    graph: &Digraph<'_>,
    visit: Visit,
) -> Result<(), AllocError>
    requires long { length entered.old ≡ length graph.now.reads.now }
    requires visit { visit.number < length graph.now.reads.now }
    requires stack { AreVisitsBelow (length graph.now.reads.now) stack.old.items }
    requires traversal { IsTraversal (length graph.now.reads.now) traversal.old }
    ensures stack { OnOk result (AreVisitsBelow (length graph.now.reads.now) stack.new.items) }
    ensures traversal { OnOk result (IsTraversal (length graph.now.reads.now) traversal.new) }
    ensures less { OnOk result (2 * unmarked entered.new + vec_len stack.new ≤ 2 * unmarked entered.old + vec_len stack.old) }
{
    let numbers = graph.reads_of(visit.number);
    let next = next_unvisited(entered, numbers, visit.next);
    if next >= numbers.len() {
        traversal.postorder.push(visit.number)?;
        return Ok(());
    }
    stack.push(Visit {
        number: visit.number,
        next: next + 1,
    })?;
    enter(entered, stack, traversal, numbers[next])
}

/// Visits a number and, before its visit ends, all that it reads and that has not been entered.
fn search_from(
    entered: &mut [bool],
    stack: &mut Vec<Visit>,
    traversal: &mut Traversal,
    graph: &Digraph<'_>,
    number: u32,
) -> Result<(), AllocError>
    requires long { length entered.old ≡ length graph.now.reads.now }
    requires number { number < length graph.now.reads.now }
    requires stack { AreVisitsBelow (length graph.now.reads.now) stack.old.items }
    requires traversal { IsTraversal (length graph.now.reads.now) traversal.old }
    ensures stack { OnOk result (AreVisitsBelow (length graph.now.reads.now) stack.new.items) }
    ensures traversal { OnOk result (IsTraversal (length graph.now.reads.now) traversal.new) }
{
    if entered[number as usize] {
        return Ok(());
    }
    enter(entered, stack, traversal, number)?;
    while let Some(visit) = stack.pop() {
        visit_next(entered, stack, traversal, graph, visit)?;
    }
    Ok(())
}

/// Visits all numbers. Where there is no closed walk each visit ends after those of all that the number
/// reads, which is for the caller to see.
///
/// # Errors
/// Where there is no memory.
pub(crate) fn depth_first_search(
    alloc: Global,
    graph: &Digraph<'_>,
) -> Result<Traversal, AllocError>
    ensures { IfOk result (IsTraversal (length graph.now.reads.now)) }
{
    let mut entered = Vec::from_elem(alloc, false, graph.reads.len())?;
    let mut stack = Vec::new(alloc);
    let mut traversal = Traversal {
        preorder: Vec::new(alloc),
        postorder: Vec::new(alloc),
    };
    for number in 0..graph.count() {
        search_from(
            entered.as_mut_slice(),
            &mut stack,
            &mut traversal,
            graph,
            number,
        )?;
    }
    Ok(traversal)
}

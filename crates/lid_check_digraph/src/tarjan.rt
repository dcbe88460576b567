//! Tarjan's strongly connected components, by which the numbers that lie on no closed walk are told.

ghost use Rattle.std.specs.Prelude.{◌≡◌, ◌<◌, ℕ, length, IsTrue, IfOk, OnOk};
ghost use Rattle.lid_check_digraph.specs.PartialOrders.{AreBelow, MarksLoops, IsUphill};
ghost use Rattle.lid_check_digraph.specs.Traversals.{IsTraversal, AreComponents};

use crate::adjacency::Digraph;
use crate::depth_first::Traversal;
use std::alloc::{AllocError, Global};

/// What is known of the numbers while their components are told: the numbers of a component are those
/// that walks join both ways. The rank of a number is that of its component, in the order in which the
/// components are closed.
#[derive(Drop)]
struct Components {
    /// The place of each number in preorder.
    indices: Vec<usize>,
    /// The least such place of a number without a rank to which reads are known to lead.
    lowlinks: Vec<usize>,
    /// The rank of each number that has one.
    ranks: Vec<usize>,
    /// Whether a number has a rank.
    ranked: Vec<bool>,
    /// The numbers that wait for their rank.
    stack: Vec<u32>,
}

/// The place of each number in a list.
fn places_in(alloc: Global, count: usize, numbers: &[u32]) -> Result<Vec<usize>, AllocError>
    requires { AreBelow count numbers.now }
    ensures { IfOk result (λ places. length places.items ≡ count) }
{
    let mut places = Vec::from_elem(alloc, 0, count)?;
    for (place, number) in numbers.iter().enumerate() {
        places[*number as usize] = place;
    }
    Ok(places)
}

/// The least place to which a number and its reads without a rank are known to lead.
fn lowlink_of(components: &Components, numbers: &[u32], own: usize) -> usize
    requires components { AreComponents (length components.now.indices.items) components.now }
    requires numbers { AreBelow (length components.now.indices.items) numbers.now }
{
    let mut low = own;
    for b in numbers {
        if !components.ranked[*b as usize] && components.lowlinks[*b as usize] < low {
            low = components.lowlinks[*b as usize];
        }
    }
    low
}

/// Gives a rank to those that wait and stand in preorder no earlier than `first`: they are a component.
fn close_component(components: &mut Components, first: usize, rank: usize)
    requires { AreComponents (length components.old.indices.items) components.old }
    ensures { AreComponents (length components.old.indices.items) components.new }
{
    let mut top = components.stack.len();
    while top > 0 {
        let w = components.stack[top - 1];
        if components.indices[w as usize] < first {
            break;
        }
        components.ranks[w as usize] = rank;
        components.ranked[w as usize] = true;
        top -= 1;
    }
    components.stack.truncate(top);
}

/// Ranks what can be ranked once the visit of a number has ended.
fn assign_component(
    components: &mut Components,
    graph: &Digraph<'_>,
    v: u32,
    rank: usize,
) -> Result<(), AllocError>
    requires components { AreComponents (length graph.now.reads.now) components.old }
    requires within { v < length graph.now.reads.now }
    ensures { OnOk result (AreComponents (length graph.now.reads.now) components.new) }
{
    let own = components.indices[v as usize];
    let low = lowlink_of(components, graph.reads_of(v), own);
    components.lowlinks[v as usize] = low;
    components.stack.push(v)?;
    if low == own {
        close_component(components, own, rank);
    }
    Ok(())
}

/// What is known before the first visit has ended.
fn unassigned(alloc: Global, count: usize, preorder: &[u32]) -> Result<Components, AllocError>
    requires { AreBelow count preorder.now }
    ensures { IfOk result (AreComponents count) }
{
    Ok(Components {
        indices: places_in(alloc, count, preorder)?,
        lowlinks: places_in(alloc, count, preorder)?,
        ranks: Vec::from_elem(alloc, 0, count)?,
        ranked: Vec::from_elem(alloc, false, count)?,
        stack: Vec::new(alloc),
    })
}

/// A rank for each number: no number has a greater rank than its readers, and those that walks join both
/// ways have one rank. This is for the caller to see.
fn components_of(
    alloc: Global,
    graph: &Digraph<'_>,
    traversal: &Traversal,
) -> Result<Vec<usize>, AllocError>
    requires traversal { IsTraversal (length graph.now.reads.now) traversal.now }
    ensures { IfOk result (λ ranks. length ranks.items ≡ length graph.now.reads.now) }
{
    let mut components = unassigned(alloc, graph.reads.len(), traversal.preorder.as_slice())?;
    for (rank, v) in traversal.postorder.as_slice().iter().enumerate() {
        assign_component(&mut components, graph, *v, rank)?;
    }
    Ok(components.ranks)
}

/// Marks what is read by a number that has no greater rank.
fn mark_back(marks: &mut [bool], ranks: &[usize], graph: &Digraph<'_>)
    requires marks { length marks.old ≡ length graph.now.reads.now }
    requires ranks { length ranks.now ≡ length graph.now.reads.now }
{
    for c in 0..graph.count() {
        for b in graph.reads_of(c) {
            if ranks[c as usize] <= ranks[*b as usize] {
                marks[*b as usize] = true;
            }
        }
    }
}

/// Whether no number that is read has a greater rank than the reader, and each that lacks its mark has a
/// lesser one.
fn is_uphill_at(marks: &[bool], ranks: &[usize], graph: &Digraph<'_>, c: u32) -> bool
    requires marks { length marks.now ≡ length graph.now.reads.now }
    requires ranks { length ranks.now ≡ length graph.now.reads.now }
    requires within { c < length graph.now.reads.now }
    ensures { IsTrue result → IsUphill graph.now.reads.now marks.now ranks.now c }
{
    for b in graph.reads_of(c) {
        let (read, reader) = (ranks[*b as usize], ranks[c as usize]);
        if read > reader || (!marks[*b as usize] && read == reader) {
            return false;
        }
    }
    true
}

/// The same of all numbers.
fn is_uphill(marks: &[bool], ranks: &[usize], graph: &Digraph<'_>) -> bool
    requires marks { length marks.now ≡ length graph.now.reads.now }
    requires ranks { length ranks.now ≡ length graph.now.reads.now }
    ensures { IsTrue result → (c : ℕ) → c < length graph.now.reads.now → IsUphill graph.now.reads.now marks.now ranks.now c }
{
    for c in 0..graph.count() {
        if !is_uphill_at(marks, ranks, graph, c) {
            return false;
        }
    }
    true
}

/// Marks numbers, and answers whether none on a closed walk lacks its mark.
fn mark_all(marks: &mut [bool], ranks: &[usize], graph: &Digraph<'_>) -> bool
    requires marks { length marks.old ≡ length graph.now.reads.now }
    requires ranks { length ranks.now ≡ length graph.now.reads.now }
    ensures { IsTrue result → MarksLoops graph.now.reads.now marks.new }
{
    mark_back(marks, ranks, graph);
    is_uphill(marks, ranks, graph)
}

/// Marks all numbers that lie on a closed walk. With the ranks of a whole traversal it marks no others.
///
/// # Errors
/// Where there is no memory.
pub(crate) fn looping(
    alloc: Global,
    graph: &Digraph<'_>,
    traversal: &Traversal,
) -> Result<Vec<bool>, AllocError>
    requires traversal { IsTraversal (length graph.now.reads.now) traversal.now }
    ensures count { IfOk result (λ marks. length marks.items ≡ length graph.now.reads.now) }
    ensures loops { IfOk result (λ marks. MarksLoops graph.now.reads.now marks.items) }
{
    let ranks = components_of(alloc, graph, traversal)?;
    let mut marks = Vec::from_elem(alloc, false, graph.reads.len())?;
    if mark_all(marks.as_mut_slice(), ranks.as_slice(), graph) {
        return Ok(marks);
    }
    Vec::from_elem(alloc, true, graph.reads.len())
}

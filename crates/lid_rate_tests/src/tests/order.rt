//! Small graphs with answers worked out by hand, all graphs of three numbers beside a slow closure, and
//! long chains.

use crate::tests::designs::are;
use lid_check_digraph::{
    Digraph, Found, ReadLists, find_order, find_reached, find_reaching, is_graph,
};
use std::alloc::{AllocError, Global};

/// The row of a number: of so many numbers the first each read the next, and then come these rows.
fn row_of(alloc: Global, chain: u32, rows: &[&[u32]], k: usize) -> Result<Vec<u32>, AllocError> {
    if k < chain as usize {
        return Vec::from_slice(alloc, &[k as u32 + 1]);
    }
    match rows.get(k - chain as usize) {
        Some(row) => Vec::from_slice(alloc, row),
        None => Ok(Vec::new(alloc)),
    }
}

/// What each number reads: a chain and then these rows.
fn graph_of(alloc: Global, chain: u32, rows: &[&[u32]]) -> Result<ReadLists, AllocError> {
    let count = (chain as usize).saturating_add(rows.len());
    let mut reads = ReadLists::with_capacity(alloc, count)?;
    for k in 0..count {
        reads.push(row_of(alloc, chain, rows, k)?.as_slice())?;
    }
    Ok(reads)
}

/// What comes of some rows: whether they are a graph, and then the order or the least number on a closed
/// walk.
#[derive(Drop)]
struct Outcome {
    graph: bool,
    order: Vec<u32>,
    least: Option<u32>,
}

/// What is found of a graph.
fn outcome_of(alloc: Global, found: Found) -> Outcome {
    match found {
        Found::Order(order) => Outcome {
            graph: true,
            order: order.into_vec(),
            least: None,
        },
        Found::Loop(k) => Outcome {
            graph: true,
            order: Vec::new(alloc),
            least: Some(k),
        },
    }
}

/// What is found of the rows after the chain.
fn found_in(alloc: Global, chain: u32, rows: &[&[u32]]) -> Result<Outcome, AllocError> {
    let reads = graph_of(alloc, chain, rows)?;
    if is_graph(&reads) {
        let found = find_order(alloc, &Digraph { reads: &reads })?;
        return Ok(outcome_of(alloc, found));
    }
    Ok(Outcome {
        graph: false,
        order: Vec::new(alloc),
        least: None,
    })
}

/// Whether this is found: whether there is a graph, and then an order or the least number on a closed
/// walk.
fn finds(
    alloc: Global,
    chain: u32,
    rows: &[&[u32]],
    graph: bool,
    order: &[u32],
    least: Option<u32>,
) -> bool {
    match found_in(alloc, chain, rows) {
        Ok(found) => {
            found.graph == graph && found.least == least && are(found.order.as_slice(), order)
        }
        Err(_) => false,
    }
}

/// A chain and the rows after it, whether they are a graph, and the order or the least number on a
/// closed walk.
static FOUND: [(u32, &[&[u32]], bool, &[u32], Option<u32>); 10] = [
    // Nothing, a chain, and a diamond.
    (0, &[], true, &[], None),
    (0, &[&[1], &[2], &[]], true, &[2, 1, 0], None),
    (0, &[&[], &[0], &[0, 0], &[2, 1]], true, &[0, 1, 2, 3], None),
    // 1 reads past the last number.
    (0, &[&[1], &[2]], false, &[], None),
    (0, &[&[], &[0, 1]], true, &[], Some(1)),
    // 0 leads from the loop of 3 and 4, which is met first; 1 and 2 lie on the other.
    (0, &[&[4], &[2], &[1], &[4], &[3]], true, &[], Some(1)),
    // 0 leads into the loop of 2 and 3, and 1 out of it.
    (0, &[&[], &[3], &[3], &[2, 0]], true, &[], Some(2)),
    // 0 lies between the loops of 1 and of 2.
    (0, &[&[1], &[1], &[0, 2]], true, &[], Some(1)),
    // A loop behind a million.
    (999_999, &[&[999_990]], true, &[], Some(999_990)),
    // The last of the chain reads itself, and one more reads itself and the chain.
    (
        299_999,
        &[&[299_999], &[0, 300_000]],
        true,
        &[],
        Some(299_999),
    ),
];

#[test]
fn finds_orders_and_loops(rt: HostRuntime) {
    for case in &FOUND {
        assert!(rt; finds(rt.alloc(), case.0, case.1, case.2, case.3, case.4));
    }
}

/// Whether the order of a chain of a million numbers begins with the last.
fn orders_a_million(alloc: Global) -> bool {
    match found_in(alloc, 999_999, &[&[]]) {
        Ok(found) => found.order.len() == 1_000_000 && found.order[0] == 999_999,
        Err(_) => false,
    }
}

#[test]
fn orders_a_chain_of_a_million(rt: HostRuntime) {
    assert!(rt; orders_a_million(rt.alloc()));
}

/// So many numbers, of which the first reads all others.
fn fan_of(alloc: Global, count: u32) -> Result<ReadLists, AllocError> {
    let mut reads = ReadLists::with_capacity(alloc, count as usize)?;
    reads.begin()?;
    for number in 1..count {
        reads.add(number)?;
    }
    for _ in 1..count {
        reads.begin()?;
    }
    Ok(reads)
}

/// Whether an order of so many numbers ends with the first.
fn ends_with_first(found: Found, count: usize) -> bool {
    match found {
        Found::Order(order) => {
            let order = order.into_vec();
            order.len() == count && order.as_slice().last().copied() == Some(0)
        }
        Found::Loop(_) => false,
    }
}

/// Whether the order of a million numbers, of which the first reads all others, ends with the first.
fn orders_a_fan(alloc: Global) -> bool {
    let Ok(reads) = fan_of(alloc, 1_000_000) else {
        return false;
    };
    if !is_graph(&reads) {
        return false;
    }
    match find_order(alloc, &Digraph { reads: &reads }) {
        Ok(found) => ends_with_first(found, 1_000_000),
        Err(_) => false,
    }
}

#[test]
fn orders_what_one_number_reads_once(rt: HostRuntime) {
    assert!(rt; orders_a_fan(rt.alloc()));
}

/// Whether bit 3 * c + b is set: whether c reads b, of three numbers.
fn has(bits: u32, c: u32, b: u32) -> bool {
    c < 3 && b < 3 && (bits >> (3 * c + b)) & 1 == 1
}

/// The same bits with bit 3 * c + b.
fn with(bits: u32, c: u32, b: u32) -> u32 {
    if c < 3 && b < 3 {
        bits | (1 << (3 * c + b))
    } else {
        bits
    }
}

/// The numbers of three bits.
static SETS: [&[u32]; 8] = [&[], &[0], &[1], &[0, 1], &[2], &[0, 2], &[1, 2], &[0, 1, 2]];

/// Whether a walk with an edge leads from b to c, for each pair of three numbers: Warshall's closure.
fn closure(bits: u32) -> u32 {
    let mut all = bits;
    for via in 0..3 {
        for c in 0..3 {
            for b in 0..3 {
                if has(all, c, via) && has(all, via, b) {
                    all = with(all, c, b);
                }
            }
        }
    }
    all
}

/// Whether a number is the least of three that reaches itself, or there is none and it is 3.
fn is_least(bits: u32, least: u32) -> bool {
    let all = closure(bits);
    for k in 0..3 {
        if has(all, k, k) {
            return k == least;
        }
    }
    least == 3
}

/// Whether each of three numbers stands in a list once, and after all that it reads.
fn is_order(bits: u32, order: &[u32]) -> bool {
    let mut before = 0_u32;
    for k in order {
        if *k > 2 || (before >> *k) & 1 == 1 || (bits >> (3 * *k)) & 7 & !before != 0 {
            return false;
        }
        before |= 1 << *k;
    }
    order.len() == 3
}

/// Whether an order is one, or the least number on a closed walk is that of the slow closure.
fn agrees_in(bits: u32, found: &Outcome) -> bool {
    match found.least {
        Some(k) => k < 3 && is_least(bits, k),
        None => is_least(bits, 3) && is_order(bits, found.order.as_slice()),
    }
}

/// Whether what is found of three numbers agrees with the slow closure.
fn agrees(alloc: Global, bits: u32) -> bool {
    let (low, middle, high) = (bits & 7, (bits >> 3) & 7, (bits >> 6) & 7);
    let rows = [
        SETS[low as usize],
        SETS[middle as usize],
        SETS[high as usize],
    ];
    match found_in(alloc, 0, &rows) {
        Ok(found) => found.graph && agrees_in(bits, &found),
        Err(_) => false,
    }
}

#[test]
fn agrees_with_a_slow_closure(rt: HostRuntime) {
    for bits in 0..512 {
        assert!(rt; agrees(rt.alloc(), bits));
    }
}

/// 5 reads 4 and 3, 4 reads 2 and 1, 3 reads 2, 2 reads 0.
const ROWS: [&[u32]; 6] = [&[], &[], &[0], &[2], &[2, 1], &[4, 3]];

/// Whether lists of flags are the same.
fn are_flags(flags: &[bool], want: &[bool]) -> bool {
    flags == want
}

/// Whether this is reached in a graph from the starts.
fn reached_in(
    alloc: Global,
    reads: &ReadLists,
    cut: &[bool],
    starts: &[bool],
    want: &[bool],
) -> bool {
    if !is_graph(reads) || cut.len() != reads.len() || starts.len() != reads.len() {
        return false;
    }
    let graph = Digraph { reads };
    let Ok(Found::Order(order)) = find_order(alloc, &graph) else {
        return false;
    };
    match find_reached(alloc, &graph, order.as_slice(), cut, starts) {
        Ok(found) => are_flags(found.as_slice(), want),
        Err(_) => false,
    }
}

/// Whether this is reached from the starts.
fn is_reached(alloc: Global, cut: &[bool], starts: &[bool], want: &[bool]) -> bool {
    match graph_of(alloc, 0, &ROWS) {
        Ok(reads) => reached_in(alloc, &reads, cut, starts, want),
        Err(_) => false,
    }
}

/// What is cut, where walks start, and what is reached. With 2 cut only 0 itself is reached from 0, and
/// a start that is cut is reached still.
static REACHED: [(&[bool], &[bool], &[bool]); 3] = [
    (
        &[false; 6],
        &[true, false, false, false, false, false],
        &[true, false, true, true, true, true],
    ),
    (
        &[true, false, true, false, false, false],
        &[true, false, false, false, false, false],
        &[true, false, false, false, false, false],
    ),
    (
        &[true, false, true, false, false, false],
        &[false, false, true, false, false, false],
        &[false, false, true, true, true, true],
    ),
];

#[test]
fn tells_what_is_reached(rt: HostRuntime) {
    for case in &REACHED {
        assert!(rt; is_reached(rt.alloc(), case.0, case.1, case.2));
    }
}

/// Whether these numbers of a graph reach the end.
fn reaching_in(alloc: Global, reads: &ReadLists, cut: &[bool], end: u32, want: &[bool]) -> bool {
    if !is_graph(reads) || cut.len() != reads.len() || (end as usize) >= reads.len() {
        return false;
    }
    match find_reaching(alloc, &Digraph { reads }, cut, end) {
        Ok(found) => are_flags(found.as_slice(), want),
        Err(_) => false,
    }
}

/// The same of the graph with these rows.
fn is_reaching(alloc: Global, rows: &[&[u32]], cut: &[bool], end: u32, want: &[bool]) -> bool {
    match graph_of(alloc, 0, rows) {
        Ok(reads) => reaching_in(alloc, &reads, cut, end, want),
        Err(_) => false,
    }
}

/// What is cut, where walks end, and what reaches the end. With 2 cut nothing is followed past it, an end
/// that is cut reaches itself alone, and a closed walk is no matter.
static REACHING: [(&[&[u32]], &[bool], u32, &[bool]); 4] = [
    (
        &ROWS,
        &[false; 6],
        4,
        &[true, true, true, false, true, false],
    ),
    (
        &ROWS,
        &[false, false, true, false, false, false],
        5,
        &[false, true, true, true, true, true],
    ),
    (
        &ROWS,
        &[false, false, true, false, false, false],
        2,
        &[false, false, true, false, false, false],
    ),
    (&[&[1], &[0], &[1]], &[false; 3], 0, &[true, true, false]),
];

#[test]
fn tells_what_reaches_a_number(rt: HostRuntime) {
    for case in &REACHING {
        assert!(rt; is_reaching(rt.alloc(), case.0, case.1, case.2, case.3));
    }
}

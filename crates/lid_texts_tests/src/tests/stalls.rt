//! Texts of stalls, with what the format says of them, worked out by hand.

use lid_base::Which;
use lid_stall_text::{Stall, StallFault, read_stalls};
use std::alloc::Global;

/// What is told of a text: the name of its fault, with the line or the count.
fn told_of(alloc: Global, text: &[u8]) -> (&'static str, u64) {
    match read_stalls(alloc, text) {
        Ok(_) => ("", 0),
        Err(StallFault::Word { line }) => ("Word", u64::from(line)),
        Err(StallFault::Order { line }) => ("Order", u64::from(line)),
        Err(
            StallFault::Limit {
                which: Which::FileBytes,
                count,
            },
        ) => ("Limit FileBytes", count),
        Err(StallFault::Limit { which: _, count }) => ("Limit of another thing", count),
        Err(StallFault::Memory) => ("Memory", 0),
    }
}

/// Whether a text stands for these stalls.
fn is_read(alloc: Global, text: &[u8], want: &[Stall]) -> bool {
    match read_stalls(alloc, text) {
        Ok(stalls) => stalls.as_slice() == want,
        Err(_) => false,
    }
}

fn stall(cycle: u64, source: bool, sink: bool) -> Stall {
    Stall {
        cycle,
        source,
        sink,
    }
}

#[test]
fn stalls_are_read(rt: HostRuntime) {
    let want = [
        stall(0, true, false),
        stall(7, false, true),
        stall(u64::MAX, true, true),
    ];
    assert!(rt;
        is_read(
            rt.alloc(),
            b"# held\nlid-stalls \\\n 1\n0 in\n\n7 out # sink\n18446744073709551615 both",
            &want
        )
    );
    assert!(rt; is_read(rt.alloc(), b"lid-stalls 1\n", &[]));
}

/// Texts, and what is told of them.
static FAULTS: [(&[u8], (&str, u64)); 11] = [
    (b"lid-stalls 1\n3 in\n3 out\n", ("Order", 3)),
    (b"lid-stalls 1\n3 in\n2 out\nx\n", ("Order", 3)),
    (b"lid-stalls 1\nx in\n", ("Word", 2)),
    (b"lid-stalls 1\n1 off\n", ("Word", 2)),
    (b"lid-stalls 1\n1 in out\n", ("Word", 2)),
    (b"lid-stalls 1\n01 in\n", ("Word", 2)),
    (b"lid-stalls 1\n18446744073709551616 in\n", ("Word", 2)),
    (b"lid-stalls 2\n", ("Word", 1)),
    (b"\n1 in\n", ("Word", 2)),
    (b"# nothing\n", ("Word", 0)),
    (b"lid-stalls 1\n3 in\n3 in\n\x01\n", ("Word", 4)),
];

#[test]
fn faults_of_stalls_are_told(rt: HostRuntime) {
    for (text, want) in &FAULTS {
        assert_eq!(rt; told_of(rt.alloc(), text), *want, "{text:?}");
    }
}

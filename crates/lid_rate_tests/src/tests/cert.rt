//! Certificates written out by hand for two small designs, and texts that are no certificates.

ghost use Rattle.std.specs.List.{All};
ghost use Rattle.lid_cert.specs.Certificates.{AreLists};

use crate::tests::designs::{DIAMOND, RING, RING_CERT, Station, are, are_large, graph_of};
use lid_cert::{Cert, Part, check, check_by_owners};
use lid_cert_text::{CertFault, print_cert, read_cert};
use std::alloc::{AllocError, Global};

/// Two ways that join again, with three relay stations on one of them.
const DIAMOND_CERT: &[u8] = b"lid-cert 1
part 8
ratio 1 2
cycle 2 4 6 8 15 11
node 0 0 7 1 1
node 1 1 5 0 -
node 2 3 9 2 14
node 3 2 7 1 10
node 4 2 11 3 12
node 5 0 7 1 2
node 6 1 7 2 4
node 7 2 7 3 6
";

/// Graphs with certificates, and whether these certify them.
static CHECKED: [(u32, &[Station], &[u8], bool); 4] = [
    (5, &RING, RING_CERT, true),
    (8, &DIAMOND, DIAMOND_CERT, true),
    (8, &DIAMOND, RING_CERT, false),
    (5, &RING, b"lid-cert 1\n", false),
];

/// The number of a line of the ring's certificate, what stands in its place, and whether the ring is
/// still certified.
static CHANGED: [(u32, &[u8], bool); 7] = [
    // A lone transition may have a large lag.
    (5, b"node 0 4611686018427387903 0 0 -\n", true),
    // The lag of 2 is less by one.
    (10, b"node 2 1 5 1 5\n", false),
    // The lag of 1 is more by one.
    (9, b"node 1 2 2 0 -\n", false),
    // The depth of 2 is that of 1.
    (10, b"node 2 2 5 0 5\n", false),
    // The walk of 0 goes along no edge of the graph.
    (4, b"cycle 99\n", false),
    // The second ratio has a common factor.
    (7, b"ratio 4 6\n", false),
    // The via edge of 4 leads to another transition.
    (12, b"node 4 0 5 1 9\n", false),
];

/// Whether a text is read, and it is this that it certifies the graph of these stations.
fn is_checked(alloc: Global, nodes: u32, stations: &[Station], text: &[u8], want: bool) -> bool {
    let Ok(graph) = graph_of(alloc, nodes, stations) else {
        return false;
    };
    match read_cert(alloc, text) {
        Ok(cert) => {
            check(&graph, &cert) == want && check_by_owners(alloc, &graph, &cert) == want
        }
        Err(_) => false,
    }
}

/// A text with another line in place of the one of this number, which is not the first.
fn with_line(alloc: Global, text: &[u8], number: u32, line: &[u8]) -> Result<Vec<u8>, AllocError> {
    let mut changed = Vec::new(alloc);
    let mut at: u32 = 1;
    for byte in text {
        if at != number {
            changed.push(*byte)?;
        }
        if *byte == b'\n' {
            at = at.saturating_add(1);
            if at == number {
                changed.extend_from_slice(line)?;
            }
        }
    }
    Ok(changed)
}

/// The same where a line of the ring's certificate was changed.
fn is_changed(alloc: Global, number: u32, line: &[u8], want: bool) -> bool {
    match with_line(alloc, RING_CERT, number, line) {
        Ok(text) => is_checked(alloc, 5, &RING, text.as_slice(), want),
        Err(_) => false,
    }
}

#[test]
fn checks_changed_certificates(rt: HostRuntime) {
    for case in &CHANGED {
        assert!(rt; is_changed(rt.alloc(), case.0, case.1, case.2));
    }
}

#[test]
fn checks_certificates(rt: HostRuntime) {
    for case in &CHECKED {
        assert!(rt; is_checked(rt.alloc(), case.0, case.1, case.2, case.3));
    }
}

/// A text with the largest numbers of each kind.
const LARGEST: &[u8] = b"lid-cert 1
part 1
ratio 2147483647 2147483647
cycle 4294967295
node 4294967295 4611686018427387903 4611686018427387903 4294967295 4294967295
";

/// A lead that is larger.
const LARGER: &[u8] = b"lid-cert 1
part 1
ratio 2147483647 2147483647
cycle 4294967295
node 4294967295 4611686018427387903 4611686018427387904 4294967295 4294967295
";

/// Texts, and at which line they are refused.
static REFUSED: [(&[u8], u32); 8] = [
    (b"", 0),
    (b"lid-cert 2\n", 1),
    (b"lid-cert 1\npart 0\n", 2),
    (b"lid-cert 1\npart 1\nratio 2147483648 1\n", 3),
    (b"lid-cert 1\npart 1\nratio 1 1\ncycle\n", 4),
    (
        b"lid-cert 1\npart 1\nratio 1 1\ncycle 0\nnode 0 00 0 0 -\n",
        5,
    ),
    (b"lid-cert 1\npart 1\x01\n", 2),
    (LARGER, 5),
];

/// Whether a text is refused at this line.
fn is_refused_at(alloc: Global, text: &[u8], line: u32) -> bool {
    match read_cert(alloc, text) {
        Err(CertFault::Word { line: told }) => told == line,
        _ => false,
    }
}

#[test]
fn tells_faulty_lines(rt: HostRuntime) {
    for case in &REFUSED {
        assert!(rt; is_refused_at(rt.alloc(), case.0, case.1));
    }
}

/// How many bytes the last four lines of the ring's certificate have.
const LAST_LINES: usize = 60;

#[test]
fn refuses_a_certificate_that_is_cut_off(rt: HostRuntime) {
    let text = &RING_CERT[..RING_CERT.len() - LAST_LINES];
    assert!(rt; is_refused_at(rt.alloc(), text, 8));
}

/// A text with all that may stand in it and is not printed.
const SPREAD: &[u8] =
    b"lid-cert 1 # a comment\n\npart \\\n 1\nratio 0 1\ncycle 7 7\nnode 3 2 1 0 -\n";

/// Texts, and what is printed where they have been read.
static PRINTED: [(&[u8], &[u8]); 4] = [
    (RING_CERT, RING_CERT),
    (DIAMOND_CERT, DIAMOND_CERT),
    (LARGEST, LARGEST),
    (
        SPREAD,
        b"lid-cert 1\npart 1\nratio 0 1\ncycle 7 7\nnode 3 2 1 0 -\n",
    ),
];

/// Whether this is printed of a certificate, after what stands before.
fn is_printed(alloc: Global, cert: &Cert, want: &[u8]) -> Result<bool, AllocError>
    requires { All AreLists cert.now.parts }
{
    let mut into = Vec::from_slice(alloc, b">")?;
    print_cert(cert, &mut into)?;
    Ok(into.as_slice().strip_prefix(b">") == Some(want))
}

/// The same where a text has been read.
fn prints(alloc: Global, text: &[u8], want: &[u8]) -> bool {
    match read_cert(alloc, text) {
        Ok(cert) => is_printed(alloc, &cert, want).unwrap_or(false),
        Err(_) => false,
    }
}

#[test]
fn prints_what_it_reads(rt: HostRuntime) {
    for case in &PRINTED {
        assert!(rt; prints(rt.alloc(), case.0, case.1));
    }
}

/// What a part says.
struct Said {
    p: u64,
    q: u64,
    cycle: &'static [u32],
    nodes: &'static [u32],
    lag: &'static [u64],
    lead: &'static [u64],
    via: &'static [Option<u32>],
    depth: &'static [u32],
}

/// What the parts of the ring's certificate say.
static RING_PARTS: [Said; 2] = [
    Said {
        p: 1,
        q: 1,
        cycle: &[8],
        nodes: &[0],
        lag: &[0],
        lead: &[0],
        via: &[None],
        depth: &[0],
    },
    Said {
        p: 2,
        q: 3,
        cycle: &[0, 2, 4],
        nodes: &[1, 2, 3, 4],
        lag: &[1, 2, 1, 0],
        lead: &[2, 5, 8, 5],
        via: &[None, Some(5), Some(6), Some(0)],
        depth: &[0, 1, 2, 1],
    },
];

/// Whether a part says this of its walk and transitions.
fn says(part: &Part, said: &Said) -> bool {
    part.p == said.p
        && part.q == said.q
        && are(part.cycle.as_slice(), said.cycle)
        && are(part.nodes.as_slice(), said.nodes)
        && are_large(part.lag.as_slice(), said.lag)
        && are_large(part.lead.as_slice(), said.lead)
        && part.via.as_slice() == said.via
        && are(part.depth.as_slice(), said.depth)
}

/// Whether the parts are those of the ring.
fn are_ring_parts(parts: &[Part]) -> bool {
    parts.len() == 2 && says(&parts[0], &RING_PARTS[0]) && says(&parts[1], &RING_PARTS[1])
}

#[test]
fn reads_what_is_written(rt: HostRuntime) {
    let read = match read_cert(rt.alloc(), RING_CERT) {
        Ok(cert) => are_ring_parts(cert.parts.as_slice()),
        Err(_) => false,
    };
    assert!(rt; read);
}

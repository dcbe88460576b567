//! What is told of the throughput of a ring of two registers, by a certificate written out by hand and by
//! the one that is found.

ghost use Rattle.std.specs.Prelude.{IfSome};
ghost use Rattle.lid_cert.specs.Certificates.{Certifies};

use crate::tests::designs::{RING, RING_CERT, are_large, graph_of};
use lid_cert::{Cert, Part, check};
use lid_cert_text::read_cert;
use lid_graph::Graph;
use lid_rate::is_rateable;
use lid_rate_text::{rate_text, verdict_text};
use std::alloc::Global;

/// What is told of the certificate of the ring.
const RING_VERDICT: &[u8] = b"certificate ok
part 0 ratio 1/1
part 1 ratio 2/3
sink lag 1
";

/// The sink of the ring.
const SINK: u32 = 3;

/// The certificate that a text stands for, where it is one of the graph.
fn accepted(alloc: Global, graph: &Graph, text: &[u8]) -> Option<Cert>
    ensures { IfSome result (Certifies graph.now) }
{
    match read_cert(alloc, text) {
        Ok(cert) if check(graph, &cert) => Some(cert),
        _ => None,
    }
}

/// Whether this is told of the certificate that a text stands for, which is one of the ring.
#[tactic(auto, using(lid_rate_text::proofs::Certified::ascend))]
fn is_told(alloc: Global, text: &[u8], want: &[u8]) -> bool {
    let Ok(graph) = graph_of(alloc, 5, &RING) else {
        return false;
    };
    let Some(cert) = accepted(alloc, &graph, text) else {
        return false;
    };
    match verdict_text(alloc, &cert, SINK) {
        Ok(told) => told.as_slice() == want,
        Err(_) => false,
    }
}

#[test]
fn tells_ratios_and_the_lag_of_the_sink(rt: HostRuntime) {
    assert!(rt; is_told(rt.alloc(), RING_CERT, RING_VERDICT));
}

/// The edges back of the ring.
static BACKS: [u32; 13] = [1, 0, 3, 2, 5, 4, 7, 6, 8, 9, 10, 11, 12];

/// The self edges of the ring.
static LOOPS: [u32; 5] = [8, 9, 10, 11, 12];

/// Numbers that rise along the edge without tokens, from 4 to 2.
static RISING: [u32; 5] = [0, 0, 1, 0, 0];

/// Whether the ratio and the lags of a part are these.
fn is_part(part: &Part, p: u64, q: u64, lags: &[u64]) -> bool {
    part.p == p && part.q == q && are_large(part.lag.as_slice(), lags)
}

/// Whether the ratios and lags are those of the ring.
fn are_ring_parts(parts: &[Part]) -> bool {
    parts.len() == 2 && is_part(&parts[0], 1, 1, &[0]) && is_part(&parts[1], 2, 3, &[1, 2, 1, 0])
}

/// Whether a text is that of a certificate of the ring, with its ratios and lags.
fn is_ring_text(alloc: Global, graph: &Graph, text: &[u8]) -> bool {
    match accepted(alloc, graph, text) {
        Some(cert) => are_ring_parts(cert.parts.as_slice()),
        None => false,
    }
}

/// Whether the text of a certificate of the ring is found.
fn rates_ring(alloc: Global) -> bool {
    let Ok(graph) = graph_of(alloc, 5, &RING) else {
        return false;
    };
    if graph.nodes > 70_000 || !is_rateable(&graph, &BACKS, &LOOPS, &RISING) {
        return false;
    }
    match rate_text(alloc, &graph) {
        Ok(text) => is_ring_text(alloc, &graph, text.as_slice()),
        Err(_) => false,
    }
}

#[test]
fn writes_a_certificate_of_the_ring(rt: HostRuntime) {
    assert!(rt; rates_ring(rt.alloc()));
}

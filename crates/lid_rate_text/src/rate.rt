//! The text of a certificate of a graph.

ghost use Rattle.std.specs.Prelude.{◌≤◌, IfOk};
ghost use Rattle.lid_graph.specs.Rateable.{IsRateable};
ghost use Rattle.lid_graph.specs.Walks.{WalksHaveTokens};
ghost use Rattle.lid_rate_text.specs.Throughput.{IsRateText};

use lid_cert_text::print_cert;
use lid_graph::Graph;
use lid_rate::find;
use std::alloc::{AllocError, Global};

/// The text of a certificate of a graph with at most 70,000 transitions, where each closed walk has a
/// token: the ratio of each component and the least lags, in at most 9,730,011 bytes. It is read back as
/// that certificate.
///
/// # Errors
/// Where there is no memory.
pub fn rate_text(alloc: Global, graph: &Graph) -> Result<Vec<u8>, AllocError>
    requires rateable { IsRateable graph.now }
    requires tokens { WalksHaveTokens graph.now }
    requires few { graph.now.nodes ≤ 70000 }
    ensures { IfOk result (λ text. IsRateText graph.now text.items) }
{
    let cert = find(alloc, graph)?;
    let mut text = Vec::new(alloc);
    print_cert(&cert, &mut text)?;
    Ok(text)
}

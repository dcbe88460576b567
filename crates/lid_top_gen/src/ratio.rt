//! The ratio of the sink's component.

ghost use Rattle.std.specs.Prelude.{◌<◌, IfOk};
ghost use Rattle.lid_graph.specs.Rateable.{IsRateable};
ghost use Rattle.lid_graph.specs.Ratios.{IsRatio};
ghost use Rattle.lid_shell_laws.specs.Runs.{sink_of};
ghost use Rattle.lid_stations.specs.Markings.{marking};
ghost use Rattle.lid_stations.specs.Placed.{links_in};

use lid_cert::part_with;
use lid_graph::Graph;
use lid_rate::find;
use lid_stations::{Placed, marking};
use std::alloc::{AllocError, Global};

/// The ratio p/q of a component, in lowest terms.
#[derive(Clone, Copy)]
pub(crate) struct Ratio {
    pub p: u64,
    pub q: u64,
}

/// The ratio of the component of a transition.
fn ratio_of(alloc: Global, graph: &Graph, v: u32) -> Result<Ratio, AllocError>
    requires rateable { IsRateable graph.now }
    requires there { v < graph.now.nodes }
    ensures { IfOk result (λ ratio. IsRatio graph.now v ratio.p ratio.q) }
{
    let cert = find(alloc, graph)?;
    match part_with(&cert, v) {
        Some(k) => {
            let part = &cert.parts.as_slice()[k];
            Ok(Ratio {
                p: part.p,
                q: part.q,
            })
        }
        None => unreachable!(),
    }
}

/// The ratio of the sink's component in the marked graph of a system with its stations.
pub(crate) fn sink_ratio(alloc: Global, placed: &Placed<'_>) -> Result<Ratio, AllocError>
    ensures { IfOk result (λ ratio. IsRatio (marking (links_in placed.now) placed.now.placement) (sink_of (links_in placed.now)) ratio.p ratio.q) }
{
    let graph = marking(alloc, placed.system, placed.placement)?;
    ratio_of(alloc, &graph, (placed.system.nodes.len() - 1) as u32)
}

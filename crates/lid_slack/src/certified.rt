//! What is the same for all channels: the marked graph of a placement, and a certificate of it.

ghost use Rattle.std.specs.Prelude.{IfOk};
ghost use Rattle.lid_stations.specs.Placed.{links_in};
ghost use Rattle.lid_slack.specs.Told.{IsCertified};

use lid_cert::Cert;
use lid_graph::Graph;
use lid_rate::find;
use lid_stations::{Placed, marking};
use std::alloc::{AllocError, Global};

/// A marked graph, and a certificate of it.
#[derive(Drop)]
pub struct Certified {
    pub graph: Graph,
    pub cert: Cert,
}

/// The marked graph of a placement, and a certificate of it: it is the same for all channels.
///
/// # Errors
/// Where there is no memory.
pub fn certify(alloc: Global, placed: &Placed<'_>) -> Result<Certified, AllocError>
    ensures { IfOk result (IsCertified (links_in placed.now) placed.now.placement) }
{
    let graph = marking(alloc, placed.system, placed.placement)?;
    let cert = find(alloc, &graph)?;
    Ok(Certified { graph, cert })
}

//! The parts of a certificate, compared with the forward ratios of their components.

ghost use Rattle.std.specs.Prelude.{◌≡◌, ℕ, ◌*◌, ◌<◌, ◌≤◌, ◌^◌, ◌↔◌, length, slice_index_or, IsTrue, IfOk};
ghost use Rattle.std.specs.Option.{MatchOption};
ghost use Rattle.lid_graph.specs.declared.graph.Graph.{Graph};
ghost use Rattle.lid_cert.specs.Certificates.{least_node, Certifies, IsInRange};
ghost use Rattle.lid_rate.specs.Rates.{IsShort};
ghost use Rattle.lid_size_forward.specs.ForwardParts.{no_ratio};
ghost use Rattle.lid_size.specs.Comparing.{IsRatioKept, AreAllKept, IsFirstLow, AreCompared, AreWants, ReachesWith};

use lid_cert::{Cert, Part};
use lid_rate::find;
use lid_rate_ratio::Ratio;
use lid_stations::{Placed, marking};
use std::alloc::{AllocError, Global};

/// The forward ratio of the component of a part.
pub(crate) fn want_of(part: &Part, wants: &[Ratio]) -> Ratio
    requires some { 0 < length part.now.nodes }
    requires within { least_node part.now < length wants.now }
    ensures { result ≡ slice_index_or wants.now (least_node part.now) no_ratio }
{
    wants[part.nodes.as_slice()[0] as usize]
}

/// Whether the ratio of a part is not below a forward ratio.
fn is_kept(part: &Part, want: Ratio) -> bool
    requires p { part.now.p < 2 ^ 31 }
    requires q { part.now.q < 2 ^ 31 }
    requires want_p { want.p ≤ 2 ^ 22 }
    requires want_q { want.q ≤ 2 ^ 18 }
    ensures { IsTrue result ↔ IsRatioKept want part.now }
{
    want.p * part.q <= part.p * want.q
}

/// The first part of a certificate whose ratio is below its forward ratio.
pub(crate) fn find_low(cert: &Cert, wants: &[Ratio]) -> Option<u32>
    requires compared { (g : Graph) × (n : ℕ) × AreCompared g n cert.now wants.now }
    ensures { MatchOption result (AreAllKept wants.now cert.now.parts (length cert.now.parts)) (IsFirstLow wants.now cert.now.parts) }
{
    for i in 0..cert.parts.len() {
        let part = &cert.parts.as_slice()[i];
        if !is_kept(part, want_of(part, wants)) {
            return Some(i as u32);
        }
    }
    None
}

/// Whether each component of a marking has its forward ratio.
///
/// # Errors
/// Where there is no memory.
pub(crate) fn reaches(
    alloc: Global,
    placed: &Placed<'_>,
    wants: &[Ratio],
) -> Result<bool, AllocError>
    requires { AreWants placed.now wants.now }
    ensures { IfOk result (λ all. IsTrue all ↔ ReachesWith placed.now placed.now.placement.caps) }
{
    let graph = marking(alloc, placed.system, placed.placement)?;
    let cert = find(alloc, &graph)?;
    Ok(find_low(&cert, wants).is_none())
}

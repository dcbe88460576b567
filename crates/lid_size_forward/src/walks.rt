//! Tests of forward edges, and the pieces of a list of walks.

ghost use Rattle.std.specs.Prelude.{◌≡◌, ◌<◌, ◌^◌, ◌↔◌, IsTrue};
ghost use Rattle.std.specs.List.{All};
ghost use Rattle.lid_size_laws.specs.Capacities.{IsForward};
ghost use Rattle.lid_size_forward.specs.ForwardWalks.{walk_in};

/// Whether an edge leads forth along one of so many stations, or comes after those of the stations.
pub(crate) fn is_forward(stations: u32, k: u32) -> bool
    requires { stations < 2 ^ 18 }
    ensures { IsTrue result ↔ IsForward stations k }
{
    k % 2 == 0 || k >= 2 * stations
}

/// Whether all edges of a walk do.
pub(crate) fn are_forward(stations: u32, walk: &[u32]) -> bool
    requires { stations < 2 ^ 18 }
    ensures { IsTrue result ↔ All (IsForward stations) walk.now }
{
    walk.iter().all(|k| is_forward(stations, *k))
}

/// One of some walks that stand one after the other: it begins where the one before ends. It has no edge
/// where the ends are wrong.
pub(crate) fn walk_at<'a>(walks: &'a [u32], ends: &[u32], at: u32) -> &'a [u32]
    ensures { result.now ≡ walk_in walks.now ends.now at }
{
    let end = ends.get(at as usize).copied().unwrap_or(0) as usize;
    let first = match at.checked_sub(1) {
        Some(before) => ends.get(before as usize).copied().unwrap_or(0) as usize,
        None => 0,
    };
    if first <= end && end <= walks.len() {
        &walks[first..end]
    } else {
        &walks[..0]
    }
}

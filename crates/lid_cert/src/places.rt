//! Where transitions stand in a part, and what the part says of them.

ghost use Rattle.std.specs.List.{All};
ghost use Rattle.lid_cert.specs.Certificates.{part_at, ascends, rises, place_in, has_node, lag_of, lead_of, depth_of, via_of, AreLists};
ghost use Rattle.std.specs.Prelude.{ℕ, length, false, IfSome, IsNone, ◌≡◌, ◌+◌, ◌<◌, true, None, position, option_map, slice_index, slice_index_or, ◌==◌};

use crate::cert::{Cert, Part};

/// Whether each number is above the one before.
pub(crate) fn ascends(numbers: &[u32]) -> bool
    ensures { result ≡ ascends numbers.now }
{
    let mut low: u64 = 0;
    let mut rest = numbers;
    while let [number, after @ ..] = rest {
        if u64::from(*number) < low {
            return false;
        }
        low = u64::from(*number) + 1;
        rest = after;
    }
    true
}

/// Where a number stands in an ascending list. It is found at once where the list has all numbers
/// from 0 on, and otherwise in time logarithmic in the length.
pub fn place_of(numbers: &[u32], wanted: u32) -> Option<usize>
    requires { ascends numbers.now ≡ true }
    ensures { result ≡ position (λ n. n == wanted) numbers.now }
{
    let guess = wanted as usize;
    if guess < numbers.len() && numbers[guess] == wanted {
        return Some(guess);
    }
    let mut low = 0;
    let mut high = numbers.len();
    while low < high {
        let middle = low + (high - low) / 2;
        if numbers[middle] == wanted {
            return Some(middle);
        }
        if numbers[middle] < wanted {
            low = middle + 1;
        } else {
            high = middle;
        }
    }
    None
}

/// Where a transition stands in a part.
pub(crate) fn place_in(part: &Part, v: u32) -> Option<usize>
    requires { ascends part.now.nodes ≡ true }
    ensures { result ≡ place_in part.now v }
{
    place_of(part.nodes.as_slice(), v)
}

/// Whether a transition stands in a part.
pub(crate) fn has_node(part: &Part, v: u32) -> bool
    requires { ascends part.now.nodes ≡ true }
    ensures { result ≡ has_node part.now v }
{
    place_in(part, v).is_some()
}

/// The number at a place, or 0 past the end.
fn at(numbers: &[u64], place: usize) -> u64
    ensures { result ≡ slice_index numbers.now place }
{
    if place < numbers.len() {
        numbers[place]
    } else {
        0
    }
}

/// The lag of a transition, where it stands in the part.
pub fn lag_at(part: &Part, v: u32) -> Option<u64>
    requires { ascends part.now.nodes ≡ true }
    ensures { result ≡ option_map (λ i. slice_index part.now.lag i) (place_in part.now v) }
{
    match place_in(part, v) {
        Some(place) => Some(at(part.lag.as_slice(), place)),
        None => None,
    }
}

/// The lead of a transition, or 0 where it is not in the part.
pub fn lead_of(part: &Part, v: u32) -> u64
    requires { ascends part.now.nodes ≡ true }
    ensures { result ≡ lead_of part.now v }
{
    match place_in(part, v) {
        Some(place) => at(part.lead.as_slice(), place),
        None => 0,
    }
}

/// The depth of a transition, or 0 where it is not in the part.
pub(crate) fn depth_of(part: &Part, v: u32) -> u32
    requires { ascends part.now.nodes ≡ true }
    ensures { result ≡ depth_of part.now v }
{
    let depths = part.depth.as_slice();
    match place_in(part, v) {
        Some(place) if place < depths.len() => depths[place],
        _ => 0,
    }
}

/// The via edge of a transition, or none where it is not in the part.
pub(crate) fn via_of(part: &Part, v: u32) -> Option<u32>
    requires { ascends part.now.nodes ≡ true }
    ensures { result ≡ via_of part.now v }
{
    let vias = part.via.as_slice();
    match place_in(part, v) {
        Some(place) if place < vias.len() => vias[place],
        _ => None,
    }
}

/// The number of the first part that a transition stands in, if there is one.
pub fn part_with(cert: &Cert, v: u32) -> Option<usize>
    requires { All (λ part. ascends part.nodes ≡ true) cert.now.parts }
    ensures some { IfSome result (λ k. (k < length cert.now.parts) × (has_node (part_at cert.now.parts k) v ≡ true)) }
    ensures none { IsNone result → (k : ℕ) → k < length cert.now.parts → has_node (part_at cert.now.parts k) v ≡ false }
    ensures first { IfSome result (λ k. (j : ℕ) → j < k → has_node (part_at cert.now.parts j) v ≡ false) }
{
    let parts = cert.parts.as_slice();
    for k in 0..parts.len() {
        if has_node(&parts[k], v) {
            return Some(k);
        }
    }
    None
}

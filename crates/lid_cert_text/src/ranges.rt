//! What the types of a part's lists say of their numbers. Each function here does nothing but to state
//! it.

ghost use Rattle.lid_cert_text.specs.Printed.{IsSmall, IsSmallVia, IsPartSmall};
ghost use Rattle.std.specs.List.{All};

use lid_cert::Part;

/// The numbers of a list lie below 2^32.
fn are_numbers_small(numbers: &[u32])
    ensures { All IsSmall numbers.now }
{
    let _ = numbers;
}

/// A via edge lies below 2^32.
fn is_via_small(via: Option<u32>)
    ensures { IsSmallVia via }
{
    if let Some(edge) = via {
        are_numbers_small(&[edge]);
    }
}

/// The via edges of a list lie below 2^32.
fn are_vias_small(vias: &[Option<u32>])
    ensures { All IsSmallVia vias.now }
{
    for via in vias {
        is_via_small(*via);
    }
}

/// The transitions, edges and depths of a part lie below 2^32.
fn is_part_small(part: &Part)
    ensures { IsPartSmall part.now }
{
    are_numbers_small(part.nodes.as_slice());
    are_numbers_small(part.cycle.as_slice());
    are_numbers_small(part.depth.as_slice());
    are_vias_small(part.via.as_slice());
}

/// The transitions, edges and depths of each part lie below 2^32.
pub(crate) fn are_parts_small(parts: &[Part])
    ensures { All IsPartSmall parts.now }
{
    for part in parts {
        is_part_small(part);
    }
}

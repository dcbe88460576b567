//! Certificates, written as a text.

ghost use Rattle.std.specs.Prelude.{◌≡◌, ◌++◌, ◌∷◌, ◌+◌, ◌<◌, ◌≤◌, length, map, OnOk, OnErr};
ghost use Rattle.std.specs.Fmt.{decimal};
ghost use Rattle.std.specs.List.{All, sum_by};
ghost use Rattle.lid_base.specs.Lists.{Keeps};
ghost use Rattle.lid_cert.specs.Certificates.{AreLists};
ghost use Rattle.lid_base_lines.specs.Texts.{line_text, lines_text, spaced};
ghost use Rattle.lid_cert_text.specs.Printed.{IsSmall, IsPartFull, bytes_needed};
ghost use Rattle.lid_cert_text.specs.Written.{IsReadBack, cert_text, parts_lines, part_lines, cycle_words, node_rows, node_words, node_numbers, via_word};

use crate::ranges::are_parts_small;
use lid_base_lines::{
    append_number_line, append_number_word, append_numbers, append_small_numbers, cut_back,
};
use lid_cert::{Cert, Part};
use std::alloc::AllocError;

/// Appends the line of a part's walk.
fn append_cycle(part: &Part, into: &mut Vec<u8>) -> Result<(), AllocError>
    ensures ok { OnOk result (into.new.items ≡ into.old.items ++ line_text (cycle_words part.now)) }
    ensures kept { Keeps into.old.items into.new.items }
{
    into.extend_from_slice(b"cycle")?;
    append_small_numbers(part.cycle.as_slice(), into)?;
    into.push(b'\n')?;
    Ok(())
}

/// Appends a blank and a via edge, or `-`.
fn append_via(via: Option<u32>, into: &mut Vec<u8>) -> Result<(), AllocError>
    ensures ok { OnOk result (into.new.items ≡ into.old.items ++ 32 ∷ via_word via) }
    ensures kept { Keeps into.old.items into.new.items }
{
    match via {
        Some(number) => append_number_word(u64::from(number), into),
        None => into.extend_from_slice(b" -"),
    }
}

/// Appends the numbers of the i-th transition of a part.
fn append_node_numbers(part: &Part, i: usize, into: &mut Vec<u8>) -> Result<(), AllocError>
    requires lists { AreLists part.now }
    requires within { i < length part.now.nodes }
    ensures ok { OnOk result (into.new.items ≡ into.old.items ++ spaced (map decimal (node_numbers part.now i))) }
    ensures kept { Keeps into.old.items into.new.items }
{
    let node = u64::from(part.nodes.as_slice()[i]);
    let lag = part.lag.as_slice()[i];
    let lead = part.lead.as_slice()[i];
    let depth = u64::from(part.depth.as_slice()[i]);
    append_numbers(&[node, lag, lead, depth], into)
}

/// Appends the line of the i-th transition of a part.
fn append_node(part: &Part, i: usize, into: &mut Vec<u8>) -> Result<(), AllocError>
    requires lists { AreLists part.now }
    requires within { i < length part.now.nodes }
    ensures ok { OnOk result (into.new.items ≡ into.old.items ++ line_text (node_words part.now i)) }
    ensures kept { Keeps into.old.items into.new.items }
{
    into.extend_from_slice(b"node")?;
    append_node_numbers(part, i, into)?;
    append_via(part.via.as_slice()[i], into)?;
    into.push(b'\n')?;
    Ok(())
}

/// Appends the lines of all transitions of a part.
fn append_nodes(part: &Part, into: &mut Vec<u8>) -> Result<(), AllocError>
    requires { AreLists part.now }
    ensures ok { OnOk result (into.new.items ≡ into.old.items ++ lines_text (node_rows part.now (length part.now.nodes))) }
    ensures kept { Keeps into.old.items into.new.items }
{
    for i in 0..part.nodes.len() {
        append_node(part, i, into)?;
    }
    Ok(())
}

/// Appends the lines of a part.
fn append_part(part: &Part, into: &mut Vec<u8>) -> Result<(), AllocError>
    requires { AreLists part.now }
    ensures ok { OnOk result (into.new.items ≡ into.old.items ++ lines_text (part_lines part.now)) }
    ensures kept { Keeps into.old.items into.new.items }
{
    append_number_line(b"part", &[part.nodes.len() as u64], into)?;
    append_number_line(b"ratio", &[part.p, part.q], into)?;
    append_cycle(part, into)?;
    append_nodes(part, into)
}

/// Appends the lines of all parts.
#[tactic(auto, using(lid_base_lines::proofs::Pieces::lines_text_append))]
fn append_parts(parts: &[Part], into: &mut Vec<u8>) -> Result<(), AllocError>
    requires { All AreLists parts.now }
    ensures ok { OnOk result (into.new.items ≡ into.old.items ++ lines_text (parts_lines parts.now)) }
    ensures kept { Keeps into.old.items into.new.items }
{
    for part in parts {
        append_part(part, into)?;
    }
    Ok(())
}

/// Appends the first line and the lines of all parts.
#[tactic(auto, unfolding(crate::specs::Written::cert_text))]
fn append_text(cert: &Cert, into: &mut Vec<u8>) -> Result<(), AllocError>
    requires { All AreLists cert.now.parts }
    ensures ok { OnOk result (into.new.items ≡ into.old.items ++ cert_text cert.now) }
    ensures kept { Keeps into.old.items into.new.items }
{
    into.extend_from_slice(b"lid-cert 1\n")?;
    append_parts(cert.parts.as_slice(), into)
}

/// Appends the text of a certificate. The text is read back as the certificate where each part has a
/// transition, an edge of its walk, and p, q, lags and leads in the ranges of the text, and the text has
/// at most 16,777,216 bytes. It has at most 11 bytes, and for each part 50, 11 for each edge of its walk
/// and 78 for each transition.
///
/// # Errors
/// Where there is no memory; `into` is then as it was.
pub fn print_cert(cert: &Cert, into: &mut Vec<u8>) -> Result<(), AllocError>
    requires { All AreLists cert.now.parts }
    ensures ok { OnOk result (into.new.items ≡ into.old.items ++ cert_text cert.now) }
    ensures err { OnErr result (into.new.items ≡ into.old.items) }
    ensures back { All IsPartFull cert.now.parts → length (cert_text cert.now) ≤ 16777216 → IsReadBack cert.now }
    ensures short { All IsPartFull cert.now.parts → All (λ part. IsSmall (length part.nodes)) cert.now.parts
        → length (cert_text cert.now) ≤ 11 + sum_by bytes_needed cert.now.parts }
{
    are_parts_small(cert.parts.as_slice());
    cut_back(into.len(), append_text(cert, into), into)
}

//! What a certificate says, once it is known to be one.

ghost use Rattle.std.specs.Prelude.{◌≡◌, ◌++◌, ◌∷◌, true, IfOk, OnOk};
ghost use Rattle.std.specs.List.{All, enumerate_from};
ghost use Rattle.lid_cert.specs.Certificates.{ascends};
ghost use Rattle.lid_base_lines.specs.Texts.{line_text, lines_text};
ghost use Rattle.lid_rate_text.specs.Throughput.{ratio_word, part_words, parts_lines, sink_lag, verdict_text};

use lid_base::append_number;
use lid_base_lines::{append_number_line, append_number_word};
use lid_cert::{Cert, Part, lag_at};
use std::alloc::{AllocError, Global};

/// Appends a ratio, as one word.
fn append_ratio(part: &Part, into: &mut Vec<u8>) -> Result<(), AllocError>
    ensures { OnOk result (into.new.items ≡ into.old.items ++ ratio_word part.now) }
{
    append_number(part.p, into)?;
    into.push(b'/')?;
    append_number(part.q, into)
}

/// Appends the line of the part with this number.
#[tactic(auto, unfolding(lid_base_lines::specs::Texts::line_text))]
fn append_part(number: u64, part: &Part, into: &mut Vec<u8>) -> Result<(), AllocError>
    ensures { OnOk result (into.new.items ≡ into.old.items ++ line_text (part_words number part.now)) }
{
    into.extend_from_slice(b"part")?;
    append_number_word(number, into)?;
    into.extend_from_slice(b" ratio ")?;
    append_ratio(part, into)?;
    into.push(b'\n')?;
    Ok(())
}

/// Appends a line for each part.
fn append_parts(parts: &[Part], into: &mut Vec<u8>) -> Result<(), AllocError>
    ensures { OnOk result (into.new.items ≡ into.old.items ++ lines_text (parts_lines 0 parts.now)) }
{
    let mut number = 0;
    let mut rest = parts;
    while let [part, after @ ..] = rest {
        append_part(number, part, into)?;
        number += 1;
        rest = after;
    }
    Ok(())
}

/// The lag that the first part with the sink gives it, or 0 where no part has it.
fn sink_lag(cert: &Cert, sink: u32) -> u64
    requires { All (λ part. ascends part.nodes ≡ true) cert.now.parts }
    ensures { result ≡ sink_lag cert.now sink }
{
    let mut rest = cert.parts.as_slice();
    while let [part, after @ ..] = rest {
        if let Some(lag) = lag_at(part, sink) {
            return lag;
        }
        rest = after;
    }
    0
}

/// What is told of a certificate that was accepted: the line `certificate ok`, the ratio of each part,
/// and the lag of the sink, which is the transition of this number.
///
/// # Errors
/// Where there is no memory.
#[tactic(auto, using(lid_base_lines::proofs::Pieces::lines_text_append), unfolding(crate::specs::Throughput::verdict_text, lid_base_lines::specs::Texts::line_text))]
pub fn verdict_text(alloc: Global, cert: &Cert, sink: u32) -> Result<Vec<u8>, AllocError>
    requires { All (λ part. ascends part.nodes ≡ true) cert.now.parts }
    ensures { IfOk result (λ text. text.items ≡ verdict_text cert.now sink) }
{
    let mut text = Vec::new(alloc);
    text.extend_from_slice(b"certificate ok\n")?;
    append_parts(cert.parts.as_slice(), &mut text)?;
    append_number_line(b"sink lag", &[sink_lag(cert, sink)], &mut text)?;
    Ok(text)
}

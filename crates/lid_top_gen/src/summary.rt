//! The text of what a run shows.

ghost use Rattle.std.specs.Prelude.{◌≡◌, ◌++◌, ◌∷◌, [], OnOk, codes};
ghost use Rattle.std.specs.Fmt.{decimal};
ghost use Rattle.lid_top_gen.specs.Told.{told_of, count_lines};
ghost use Rattle.lid_base_lines.specs.Texts.{line_text, lines_text};
ghost use Rattle.lid_top_script.specs.Generated.{summary_text};

use lid_base::append_number;
use lid_base_lines::append_number_line;
use std::alloc::AllocError;

/// What the run of a generated design shows.
#[derive(Clone, Copy)]
pub(crate) struct Summary {
    pub shells: u32,
    pub channels: u32,
    /// All stations, those at the channels' producers included.
    pub stations: u64,
    pub rows: u32,
    /// The bits of the output rows that are 1.
    pub ones: u64,
    pub cycles: u64,
    /// The ratio p/q of the sink's component, in lowest terms.
    pub p: u64,
    pub q: u64,
}

/// Appends the line of the ratio.
#[tactic(auto, unfolding(lid_base_lines::specs::Texts::line_text))]
fn append_ratio(p: u64, q: u64, into: &mut Vec<u8>) -> Result<(), AllocError>
    ensures { OnOk result (into.new.items ≡ into.old.items ++ line_text (codes "ratio" ∷ (decimal p ++ 47 ∷ decimal q) ∷ [])) }
{
    into.extend_from_slice(b"ratio ")?;
    append_number(p, into)?;
    into.push(b'/')?;
    append_number(q, into)?;
    into.push(b'\n')?;
    Ok(())
}

/// Appends the lines of the counts.
fn append_counts(summary: &Summary, into: &mut Vec<u8>) -> Result<(), AllocError>
    ensures { OnOk result (into.new.items ≡ into.old.items ++ lines_text (count_lines summary.now)) }
{
    append_number_line(b"shells", &[u64::from(summary.shells)], into)?;
    append_number_line(b"channels", &[u64::from(summary.channels)], into)?;
    append_number_line(b"stations", &[summary.stations], into)?;
    append_number_line(b"rows", &[u64::from(summary.rows)], into)?;
    append_number_line(b"ones", &[summary.ones], into)?;
    append_number_line(b"cycles", &[summary.cycles], into)
}

/// Appends the text.
#[tactic(auto, using(lid_base_lines::proofs::Pieces::lines_text_append), unfolding(lid_top_script::specs::Generated::summary_text))]
pub(crate) fn append_summary(summary: &Summary, into: &mut Vec<u8>) -> Result<(), AllocError>
    ensures { OnOk result (into.new.items ≡ into.old.items ++ summary_text (told_of summary.now)) }
{
    append_counts(summary, into)?;
    append_ratio(summary.p, summary.q, into)
}

//! Which line is due in the text of a certificate.

ghost use Rattle.std.specs.Prelude.{◌≡◌};
ghost use Rattle.lid_cert_text.specs.Texts.{is_header_line, is_part_line, is_ratio_line, is_cycle_line, is_node_line, is_due, due_after, may_end, line_at_fault};
ghost use Rattle.lid_cert_text.specs.declared.stage.Stage.TheVariants as stage;

use crate::words::{LARGE, RATIO, SMALL, are_small, is_via_word, small};
use lid_base::{Line, Name, begins_with, is_below, is_same, word_at, words_after};

/// Which line is due. `left` is how many `node` lines are due in this part.
#[derive(Clone, Copy)]
pub(crate) enum Stage {
    /// The first line of the text.
    Header,
    /// A part, or the end.
    Between,
    Ratio { left: u32 },
    Cycle { left: u32 },
    Nodes { left: u32 },
}

fn is_header_line(words: &[Name]) -> bool
    ensures { result ≡ is_header_line words.now }
{
    words.len() == 2 && begins_with(b"lid-cert", words) && is_same(word_at(words, 1), b"1")
}

fn is_part_line(words: &[Name]) -> bool
    ensures { result ≡ is_part_line words.now }
{
    words.len() == 2
        && begins_with(b"part", words)
        && is_below(SMALL, word_at(words, 1))
        && 0 < small(word_at(words, 1))
}

fn is_ratio_line(words: &[Name]) -> bool
    ensures { result ≡ is_ratio_line words.now }
{
    words.len() == 3
        && begins_with(b"ratio", words)
        && is_below(RATIO, word_at(words, 1))
        && is_below(RATIO, word_at(words, 2))
}

fn is_cycle_line(words: &[Name]) -> bool
    ensures { result ≡ is_cycle_line words.now }
{
    2 <= words.len() && begins_with(b"cycle", words) && are_small(words_after(words, 1))
}

fn is_node_line(words: &[Name]) -> bool
    ensures { result ≡ is_node_line words.now }
{
    words.len() == 6
        && begins_with(b"node", words)
        && is_below(SMALL, word_at(words, 1))
        && is_below(LARGE, word_at(words, 2))
        && is_below(LARGE, word_at(words, 3))
        && is_below(SMALL, word_at(words, 4))
        && is_via_word(word_at(words, 5))
}

/// Whether a line has the form that is due.
fn is_due(stage: Stage, words: &[Name]) -> bool
    ensures { result ≡ is_due stage words.now }
{
    match stage {
        Stage::Header => is_header_line(words),
        Stage::Between => is_part_line(words),
        Stage::Ratio { .. } => is_ratio_line(words),
        Stage::Cycle { .. } => is_cycle_line(words),
        Stage::Nodes { .. } => is_node_line(words),
    }
}

/// What is due after a line of the form that was due.
fn due_after(stage: Stage, words: &[Name]) -> Stage
    ensures { result ≡ due_after stage words.now }
{
    match stage {
        Stage::Header => Stage::Between,
        Stage::Between => Stage::Ratio {
            left: small(word_at(words, 1)),
        },
        Stage::Ratio { left } => Stage::Cycle { left },
        Stage::Cycle { left } => Stage::Nodes { left },
        Stage::Nodes { left } if left > 1 => Stage::Nodes { left: left - 1 },
        Stage::Nodes { .. } => Stage::Between,
    }
}

/// Whether a text may end here.
fn may_end(stage: Stage) -> bool
    ensures { result ≡ may_end stage }
{
    match stage {
        Stage::Between => true,
        _ => false,
    }
}

/// The number of the first line that has not the form that is due. It is that of the last line where
/// the text ends inside a part, and 0 where there is no line.
pub(crate) fn line_at_fault(lines: &[Line]) -> Option<u32>
    ensures { result ≡ line_at_fault stage.Header 0 lines.now }
{
    let mut stage = Stage::Header;
    let mut last = 0;
    let mut rest = lines;
    while let [line, after @ ..] = rest {
        let words = line.words.as_slice();
        if !is_due(stage, words) {
            return Some(line.number);
        }
        stage = due_after(stage, words);
        last = line.number;
        rest = after;
    }
    if may_end(stage) { None } else { Some(last) }
}

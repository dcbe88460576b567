//! The words of a logical line.

ghost use Rattle.std.specs.Prelude.{◌≡◌};
ghost use Rattle.lid_blif.specs.Words.{named_keyword, begins_with_dot, same_keyword, is_line, leading, is_inner};
ghost use Rattle.lid_blif.specs.declared.keyword.Keyword.TheVariants.{Row};
ghost use Rattle.lid_blif.specs.Faults.{ends_in_zero, ends_in_one};

use crate::keyword::Keyword;
use crate::line::{TextLine, last_word};
use lid_base::is_same;

fn is_dotted(word: &[u8]) -> bool
    ensures { result ≡ begins_with_dot word.now }
{
    match word {
        [] => false,
        [first, ..] => *first == b'.',
    }
}

/// What a first word says.
#[tactic(auto, unfolding(crate::specs::Words::named_keyword))]
pub fn named(word: &[u8]) -> Keyword
    ensures { result ≡ named_keyword word.now }
{
    if is_same(word, b".model") {
        Keyword::Model
    } else if is_same(word, b".inputs") {
        Keyword::Inputs
    } else if is_same(word, b".outputs") {
        Keyword::Outputs
    } else if is_same(word, b".clock") {
        Keyword::Clock
    } else if is_same(word, b".names") {
        Keyword::Names
    } else if is_same(word, b".latch") {
        Keyword::Latch
    } else if is_same(word, b".subckt") {
        Keyword::Subckt
    } else if is_same(word, b".end") {
        Keyword::End
    } else if is_dotted(word) {
        Keyword::Unknown
    } else {
        Keyword::Row
    }
}

fn same(keyword: Keyword, other: Keyword) -> bool
    ensures { result ≡ same_keyword keyword other }
{
    keyword == other
}

/// Whether a line begins with this keyword.
pub fn is_line(wanted: Keyword, line: &TextLine<'_, '_>) -> bool
    ensures { result ≡ is_line wanted line.now }
{
    same(wanted, line.keyword())
}

/// Whether a row has the output 0.
pub fn is_zero_row(row: &TextLine<'_, '_>) -> bool
    ensures { result ≡ ends_in_zero row.now }
{
    is_same(last_word(&row.words()), b"0")
}

/// Whether a row has the output 1.
pub fn is_one_row(row: &TextLine<'_, '_>) -> bool
    ensures { result ≡ ends_in_one row.now }
{
    is_same(last_word(&row.words()), b"1")
}

/// The rows that some lines begin with.
pub fn leading_rows<'l, 'w, 't>(lines: &'l [TextLine<'w, 't>]) -> &'l [TextLine<'w, 't>]
    ensures { result.now ≡ leading (is_line Row) lines.now }
{
    for (at, line) in lines.iter().enumerate() {
        if !is_line(Keyword::Row, line) {
            return &lines[..at];
        }
    }
    lines
}

/// The lines up to the first `.model`.
pub fn leading_inner<'l, 'w, 't>(lines: &'l [TextLine<'w, 't>]) -> &'l [TextLine<'w, 't>]
    ensures { result.now ≡ leading is_inner lines.now }
{
    for (at, line) in lines.iter().enumerate() {
        if is_line(Keyword::Model, line) {
            return &lines[..at];
        }
    }
    lines
}

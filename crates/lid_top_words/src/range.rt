//! The ranges of the options and the place that are numbers.

ghost use Rattle.std.specs.Prelude.{◌≡◌, map, option_map};
ghost use Rattle.lid_top_words.specs.Jobs.{range_shown, range_among, is_within, fits};

use crate::table::{RANGES, Range};
use lid_base::number;

/// The range among these that a word names.
fn find_range(ranges: &[Range], word: &str) -> Option<Range>
    ensures { option_map range_shown result ≡ range_among (map range_shown ranges.now) word.now }
{
    for range in ranges {
        let (name, ..) = *range;
        if name == word {
            return Some(*range);
        }
    }
    None
}

/// Whether a text is a number word in the range.
#[tactic(auto, unfolding(crate::specs::Jobs::is_within))]
fn is_within(least: u64, greatest: u64, text: &str) -> bool
    ensures { result ≡ is_within least greatest text.now }
{
    match number(text.as_bytes()) {
        Some(n) => least <= n && n <= greatest,
        None => false,
    }
}

/// Whether a text may stand at this option or place: where that is a number, whether it is a number
/// word in its range.
#[tactic(auto, unfolding(crate::specs::Jobs::fits))]
pub fn fits(name: &str, text: &str) -> bool
    ensures { result ≡ fits name.now text.now }
{
    match find_range(&RANGES, name) {
        Some((_, least, greatest)) => is_within(least, greatest, text),
        None => true,
    }
}

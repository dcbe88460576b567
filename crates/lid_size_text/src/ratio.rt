//! Ratios as words.

ghost use Rattle.std.specs.Prelude.{◌≡◌, ◌++◌, OnOk};
ghost use Rattle.lid_size_text.specs.Sizes.{ratio_word};

use lid_base::append_number;
use std::alloc::AllocError;

/// Appends p/q, as one word.
pub(crate) fn append_ratio(p: u64, q: u64, into: &mut Vec<u8>) -> Result<(), AllocError>
    ensures { OnOk result (into.new.items ≡ into.old.items ++ ratio_word p q) }
{
    append_number(p, into)?;
    into.push(b'/')?;
    append_number(q, into)
}

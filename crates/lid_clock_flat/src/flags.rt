//! Flags of actors.

ghost use Rattle.std.specs.Prelude.{◌≤◌, length};
ghost use Rattle.lid_clock_flat.specs.Wakings.{IsNextSet};

/// The first place from this one on whose flag is set, or how many flags there are.
pub(crate) fn next_set(flags: &[bool], start: usize) -> usize
    requires { start ≤ length flags.now }
    ensures { IsNextSet flags.now start result }
{
    let mut place = start;
    while place < flags.len() && !flags[place] {
        place += 1;
    }
    place
}

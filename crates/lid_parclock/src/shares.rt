//! The shares of workers: things are cut, in order, into as long shares as are needed for there to be no more
//! of them than workers.

ghost use Rattle.std.specs.Prelude.{◌≡◌, ◌/◌, ◌^◌, ◌<◌};
ghost use Rattle.lid_parclock.specs.Shares.{IsShareLength};

/// How long the shares of so many things are; the last one may be shorter.
pub(crate) fn share_length(count: usize, workers: u32) -> usize
    requires { 0 < workers }
    ensures { IsShareLength count workers result }
{
    count.div_ceil(workers as usize).max(1)
}

/// The number of the share that starts with a thing.
pub(crate) fn share_at(start: usize, length: usize) -> u32
    requires some { 0 < length }
    requires few { start / length < 2 ^ 32 }
    ensures { result ≡ start / length }
{
    (start / length) as u32
}

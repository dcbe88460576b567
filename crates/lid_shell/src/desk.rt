//! The stations of an actor, and its place in a firing.

ghost use Rattle.std.specs.Prelude.{◌≡◌, ◌+◌, ◌≤◌, length};
ghost use Rattle.lid_walk_machine.specs.Machine.{ends_at};
ghost use Rattle.lid_shell.specs.Inside.{IsNext};

use smallvec::SmallVec;

/// What an actor does next: it looks at, or takes from, a station by its place among those that it drains; it looks
/// at, or puts in, one of those that it fills; or it fires.
#[derive(Clone, Copy)]
pub(crate) enum Next {
    LookIn(usize),
    LookOut(usize),
    Take(usize),
    Put(usize),
    Fire,
}

/// The stations of an actor, how far it is, and the tokens of a firing that has begun. A mover drains one station and
/// fills one, so its lists take no memory.
#[derive(Drop)]
pub(crate) struct Desk {
    /// The stations that it drains, in the order of the channels.
    pub(crate) ins: SmallVec<u32, 1>,
    /// The stations that it fills.
    pub(crate) outs: SmallVec<u32, 1>,
    /// The tokens taken in this firing, by the places of `ins`.
    pub(crate) taken: SmallVec<u32, 1>,
    /// The tokens that this firing puts, by the places of `outs`.
    pub(crate) tokens: SmallVec<u32, 1>,
    /// How often it fires at most.
    pub(crate) cap: u64,
    /// How often it has fired.
    pub(crate) fired: u64,
    /// Its position in a firing, 0 at rest.
    pub(crate) position: usize,
}

impl Desk {
    /// What is next. An actor has at most 131,072 stations.
    pub(crate) fn next(&self) -> Next
        requires { length self.now.ins.items + length self.now.outs.items ≤ 131072 }
        ensures { IsNext (length self.now.ins.items) (length self.now.outs.items) self.now.position result }
    {
        let takes_from = self.ins.len() + self.outs.len();
        let puts_from = takes_from + self.ins.len();
        if self.position < self.ins.len() {
            Next::LookIn(self.position)
        } else if self.position < takes_from {
            Next::LookOut(self.position - self.ins.len())
        } else if self.position < puts_from {
            Next::Take(self.position - takes_from)
        } else if self.position < puts_from + self.outs.len() {
            Next::Put(self.position - puts_from)
        } else {
            Next::Fire
        }
    }

    /// The position at which a firing ends.
    pub(crate) fn end(&self) -> usize
        requires { length self.now.ins.items + length self.now.outs.items ≤ 131072 }
        ensures { result ≡ ends_at (length self.now.ins.items) (length self.now.outs.items) }
    {
        let stations = self.ins.len() + self.outs.len();
        stations + stations
    }
}

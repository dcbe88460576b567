//! The outside, as the program sees it: files that are fetched, outputs that are written, and a
//! gate that workers pass.

ghost use Rattle.std.specs.Prelude.{◌≡◌, ℕ, ◌≤◌, ◌<◌, Bool, List, [], ◌∷◌, Option, length, IfOk, OnOk, OnErr};
ghost use Rattle.lid_base.specs.Outside.{Rose, FetchedFrom, Appended, AppendedPrefix, Came, one_fetch};

use crate::names::Name;

/// A fetch failed.
#[derive(Clone, Copy, Debug, PartialEq, Eq)]
pub struct ShelfFailed;

/// A write failed.
#[derive(Clone, Copy, Debug, PartialEq, Eq)]
pub struct SinkFailed;

/// A call of `fetch`: the name, the place, and for how many bytes there was room.
#[derive(Drop)]
pub struct Fetch {
    pub name: Name,
    pub at: u64,
    pub room: usize,
}

/// Named files that can be fetched in pieces.
///
/// `held` is what a name holds, where the shelf tells that. `faults` is a count for each name,
/// which never falls, and rises only where a fetch fails. `fetches` are the calls of `fetch` so far,
/// failed ones too, where the shelf tells them. `whole` says of a shelf that tells what its names
/// hold that each fetch gives as many bytes as there is room for or as are left.
pub trait Shelf {
    ghost use Rattle.lid_base.specs.declared.outside.Fetch.{Fetch};

    ghost held: { Self → List ℕ → Option (List ℕ) };

    ghost faults: { Self → List ℕ → ℕ };

    ghost fetches: { Self → Option (List Fetch) };

    ghost whole: { Bool };

    /// Fetches bytes of a name from the place `at`, at most as many as `into` takes. For an `into`
    /// that is not empty, 0 bytes are the end.
    ///
    /// # Errors
    /// A fetch fails only where the count of its name rose in this call; `into` may then hold any
    /// bytes.
    fn fetch(&mut self, name: &str, at: u64, into: &mut [u8]) -> Result<usize, ShelfFailed>
        ensures within { IfOk result (λ n. n ≤ length into.new) }
        ensures bytes { IfOk result (λ n. FetchedFrom whole (held self.old name.now) at into.new n) }
        ensures failed { OnErr result (Rose (faults self.old name.now) (faults self.new name.now)) }
        ensures still { OnOk result ((q : List ℕ) → faults self.new q ≡ faults self.old q) }
        ensures told { Came (fetches self.old) (fetches self.new) (one_fetch name.now at (length into.old)) }
        ensures kept { held self.new ≡ held self.old }
        ensures grows { (q : List ℕ) → faults self.old q ≤ faults self.new q };
}

/// An output to which pieces are appended.
///
/// `written` is what was written so far, where the sink tells that. `faults` is a count that never
/// falls, and rises only where a write fails. `pieces` are those of all calls of `write` so far,
/// failed ones too, where the sink tells them.
pub trait Sink {
    ghost written: { Self → Option (List ℕ) };

    ghost faults: { Self → ℕ };

    ghost pieces: { Self → Option (List (List ℕ)) };

    /// Appends the piece, which has some bytes, and at most 65,536.
    ///
    /// # Errors
    /// A write fails only where the count rose in this call; a prefix of the piece was then appended.
    fn write(&mut self, piece: &[u8]) -> Result<(), SinkFailed>
        requires some { 0 < length piece.now }
        requires few { length piece.now ≤ 65536 }
        ensures ok { OnOk result (Appended (written self.old) (written self.new) piece.now) }
        ensures err { OnErr result (AppendedPrefix (written self.old) (written self.new) piece.now) }
        ensures failed { OnErr result (Rose (faults self.old) (faults self.new)) }
        ensures still { OnOk result (faults self.new ≡ faults self.old) }
        ensures told { Came (pieces self.old) (pieces self.new) (piece.now ∷ []) }
        ensures grows { faults self.old ≤ faults self.new };
}

/// What each worker passes before each of its rounds. Nothing is promised of it.
pub trait Gate: Sync {
    /// Passes the gate.
    fn pass(&self, worker: u32, round: u64);
}

/// A gate that stands open: `pass` does nothing.
#[derive(Clone, Copy, Debug, PartialEq, Eq)]
pub struct OpenGate;

impl Gate for OpenGate {
    fn pass(&self, _worker: u32, _round: u64) {}
}

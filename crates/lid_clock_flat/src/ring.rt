//! What is done at the ends of a station.

ghost use Rattle.std.specs.Prelude.{◌≡◌, ◌<◌, true, false};
ghost use Rattle.lid_clock_flat.specs.Rings.{around, place_at, StationSettles};
ghost use Rattle.lid_clock_flat.specs.Ends.{other_end};

use crate::station::FlatStation;

/// A place of a ring of so many, where the first one comes after the last.
fn wrap(place: u32, cap: u32) -> u32
    ensures { result ≡ around place cap }
{
    if place < cap { place } else { place - cap }
}

impl FlatStation {
    /// Whether it holds a token.
    pub(crate) fn is_valid(&self) -> bool
        ensures yes { result ≡ true → 0 < self.now.held }
        ensures no { result ≡ false → self.now.held ≡ 0 }
    {
        0 < self.held
    }

    /// Whether it has room for one more.
    pub(crate) fn has_room(&self) -> bool
        ensures yes { result ≡ true → self.now.held < self.now.cap }
        ensures no { result ≡ false → self.now.held ≡ self.now.cap }
    {
        self.held < self.cap
    }

    /// The place of its oldest token.
    pub(crate) fn first_place(&self) -> usize
        ensures { result ≡ place_at self.now 0 }
    {
        self.base as usize + self.head as usize
    }

    /// The place of the next token that it gains.
    pub(crate) fn free_place(&self) -> usize
        ensures { result ≡ place_at self.now self.now.held }
    {
        self.base as usize + wrap(self.head + self.held, self.cap) as usize
    }

    /// Who stands at its other end, where it loses a token at one, or else gains one.
    pub(crate) fn other_end(&self, loses: bool) -> u32
        ensures { result ≡ other_end loses self.now }
    {
        if loses { self.filler } else { self.drainer }
    }

    /// Gains the token in its free place, where its filler fired, and loses its oldest one, where its drainer
    /// did.
    pub(crate) fn settle(&mut self, gains: bool, loses: bool)
        requires room { gains ≡ true → self.old.held < self.old.cap }
        requires some { loses ≡ true → 0 < self.old.held }
        ensures { StationSettles self.old gains loses self.new }
    {
        if loses {
            self.head = wrap(self.head + 1, self.cap);
            self.held -= 1;
        }
        if gains {
            self.held += 1;
        }
    }
}

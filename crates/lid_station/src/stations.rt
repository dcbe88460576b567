//! What may be done at the ends of stations.

ghost use Rattle.std.specs.Prelude.{◌≡◌, ℕ, ◌+◌, ◌/◌, ◌^◌, ◌<◌, ◌≤◌, List, length, Some, Option, slice_get, ◌↔◌};
ghost use base.Stored.{Gv};
ghost use Rattle.lid_station.specs.Boards.{Facts, fill, drain, IsServed, IsMarked, advanced, Changes, noted, looked_in, looked_out, IsToken, IsVoid, IsRoom, IsStop, FindsIn, FindsOut, HasSmallToken, TellsNothing, TellsFull, HasFilled, HasDrained};

use crate::looks::{InLook, OutLook};

/// Stations, of which some ends are served here.
///
/// `ends` has what is known of each served end, by its number: the capacity of its station, how
/// many tokens the station started with, how many passed the end, whether a token or room was seen
/// there and not used, and how many looks found none, where that is counted. A start count that is
/// not known is 0. The end of a station that is filled has twice the station's number, the one that
/// is drained one more.
///
/// `stands` tells whether the stations carry given streams, one for each station. The tokens that
/// passed an end are then the first of the station's stream, and no end was passed by more than the
/// stream has. `admits` tells whether a token may be put in a station. `steps` has the end of each call that was made,
/// the latest first, where that is noted: each of the four calls notes its end once. `identity` is what the stations are
/// made of: a call on a part of them that was lent is a call on the same stations.
///
/// No call takes memory, and none changes which ends are served, a capacity or a start count.
pub trait Stations {
    ghost ends: { Self → ℕ → Option Facts };

    ghost stands: { Self → (ℕ → List ℕ) → Type 0 };

    ghost admits: { Self → ℕ → ℕ → Type 0 };

    ghost steps: { Self → Option (List ℕ) };

    ghost identity: { Self → Gv };

    /// Looks for a token at a station whose drained end is served. A token is then seen; `Void`
    /// is one miss, where misses are counted. Where a token was seen before and not taken, it is
    /// found again.
    ///
    /// `Void` comes only once all tokens that the station started with were taken. Where the filled
    /// end is served too, it comes exactly where the station holds nothing.
    fn look_in(&mut self, station: u32) -> InLook
        requires { IsServed (ends self.old) (drain station) }
        ensures changed { Changes (ends self.old) (drain station) (looked_in result) (ends self.new) }
        ensures found { (streams : ℕ → List ℕ) → (f : Facts) → stands self.old streams → ends self.old (drain station) ≡ Some f
            → FindsIn result f (streams station) }
        ensures small { HasSmallToken result }
        ensures nothing { TellsNothing result }
        ensures drained { (f : Facts) → ends self.old (drain station) ≡ Some f → HasDrained result f }
        ensures again { IsMarked (ends self.old) (drain station) → IsToken result }
        ensures exact { (f : Facts) → (d : Facts) → ends self.old (fill station) ≡ Some f → ends self.old (drain station) ≡ Some d
            → (IsVoid result ↔ f.passed ≡ d.passed) }
        ensures kept { (streams : ℕ → List ℕ) → stands self.old streams → stands self.new streams }
        ensures steps { steps self.new ≡ noted (drain station) (steps self.old) }
        ensures same { identity self.new ≡ identity self.old };

    /// Looks for room at a station whose filled end is served. Room is then seen; `Stop` is one
    /// miss, where misses are counted. Where room was seen before and not used, it is found again.
    /// The word that `Stop` tells has the full bit of each place.
    ///
    /// Where the drained end is served too, `Stop` comes exactly where the station holds as many
    /// tokens as its capacity.
    fn look_out(&mut self, station: u32) -> OutLook
        requires { IsServed (ends self.old) (fill station) }
        ensures changed { Changes (ends self.old) (fill station) (looked_out result) (ends self.new) }
        ensures found { (streams : ℕ → List ℕ) → (f : Facts) → stands self.old streams → ends self.old (fill station) ≡ Some f
            → FindsOut result f (streams station) }
        ensures filled { (f : Facts) → ends self.old (fill station) ≡ Some f → HasFilled result f }
        ensures full { (f : Facts) → ends self.old (fill station) ≡ Some f → TellsFull result f }
        ensures again { IsMarked (ends self.old) (fill station) → IsRoom result }
        ensures exact { (f : Facts) → (d : Facts) → ends self.old (fill station) ≡ Some f → ends self.old (drain station) ≡ Some d
            → (IsStop result ↔ f.passed ≡ d.passed + f.cap) }
        ensures kept { (streams : ℕ → List ℕ) → stands self.old streams → stands self.new streams }
        ensures steps { steps self.new ≡ noted (fill station) (steps self.old) }
        ensures same { identity self.new ≡ identity self.old };

    /// Takes the token that was seen, which is the next of the station's stream.
    fn take(&mut self, station: u32) -> u32
        requires { IsMarked (ends self.old) (drain station) }
        ensures changed { Changes (ends self.old) (drain station) advanced (ends self.new) }
        ensures token { (streams : ℕ → List ℕ) → (f : Facts) → stands self.old streams → ends self.old (drain station) ≡ Some f
            → slice_get (streams station) f.passed ≡ Some result }
        ensures small { result < 2 ^ 31 }
        ensures kept { (streams : ℕ → List ℕ) → stands self.old streams → stands self.new streams }
        ensures steps { steps self.new ≡ noted (drain station) (steps self.old) }
        ensures same { identity self.new ≡ identity self.old };

    /// Puts a token below 2^31 that is admitted into the room that was seen.
    fn put(&mut self, station: u32, token: u32)
        requires room { IsMarked (ends self.old) (fill station) }
        requires small { token < 2 ^ 31 }
        requires admitted { admits self.old station token }
        ensures changed { Changes (ends self.old) (fill station) advanced (ends self.new) }
        ensures kept { (streams : ℕ → List ℕ) → (f : Facts) → stands self.old streams → ends self.old (fill station) ≡ Some f
            → slice_get (streams station) f.passed ≡ Some token → stands self.new streams }
        ensures steps { steps self.new ≡ noted (fill station) (steps self.old) }
        ensures same { identity self.new ≡ identity self.old };

    ghost next_is_admitted: { (board : Self) → (streams : ℕ → List ℕ) → (station : ℕ) → (token : ℕ) → (f : Facts) → stands board streams
        → ends board (fill station) ≡ Some f → slice_get (streams station) f.passed ≡ Some token → admits board station token };

    ghost passed_within: { (board : Self) → (streams : ℕ → List ℕ) → (station : ℕ) → (end : ℕ) → (f : Facts) → end / 2 ≡ station → stands board streams
        → ends board end ≡ Some f → f.passed ≤ length (streams station) };
}

//! Stations that are read by their numbers.

ghost use Rattle.std.specs.Prelude.{◌≡◌, ◌≤◌, true, false, length};
ghost use Rattle.lid_clock_flat.specs.Rings.{RingsAreApart};
ghost use Rattle.lid_clock_flat.specs.Reads.{AreThere, AreReadOnce, AllHold, OneIsEmpty, AllHaveRoom, OneIsFull, AreOffered};

use crate::station::FlatStation;
use crate::stations::FlatStations;

/// Whether each of these stations holds a token.
pub(crate) fn all_hold(reads: &[u32], stations: &[FlatStation]) -> bool
    requires { AreThere reads.now stations.now }
    ensures yes { result ≡ true → AllHold reads.now stations.now }
    ensures no { result ≡ false → OneIsEmpty reads.now stations.now }
{
    for read in reads {
        if !stations[*read as usize].is_valid() {
            return false;
        }
    }
    true
}

/// Whether each of these stations has room.
pub(crate) fn all_have_room(reads: &[u32], stations: &[FlatStation]) -> bool
    requires { AreThere reads.now stations.now }
    ensures yes { result ≡ true → AllHaveRoom reads.now stations.now }
    ensures no { result ≡ false → OneIsFull reads.now stations.now }
{
    for read in reads {
        if !stations[*read as usize].has_room() {
            return false;
        }
    }
    true
}

/// Offers tokens to these stations, in order.
pub(crate) fn offer_all(reads: &[u32], tokens: &[u32], stations: &mut FlatStations)
    requires there { AreThere reads.now stations.old.all.items }
    requires once { AreReadOnce reads.now }
    requires room { AllHaveRoom reads.now stations.old.all.items }
    requires apart { RingsAreApart stations.old.all.items stations.old.places.items }
    requires many { length reads.now ≤ length tokens.now }
    ensures { AreOffered reads.now tokens.now (length reads.now) stations.old stations.new }
{
    for i in 0..reads.len() {
        stations.offer(reads[i] as usize, tokens[i]);
    }
}

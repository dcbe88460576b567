//! The rows of a file, one by one.

ghost use Rattle.std.specs.Prelude.{◌≡◌, ℕ, ◌≤◌, ◌<◌, Bool, List, [], length, Option, None, IsSome, IfOk, IfErr, OnOk};
ghost use Rattle.lid_base.specs.Outside.{Rose};
ghost use Rattle.lid_base.specs.declared.outside.Fetch.{Fetch};
ghost use Rattle.lid_texts_feed.specs.Feeds.{IsRefusedText, IfRead, IfRefused, UnlessRead};
ghost use Rattle.lid_texts_feed.specs.Fetching.{HasGiven, GivesNext, FeedsBy, FailsBy, IsBelowAsked, left_of};

use crate::fault::FeedFault;
use crate::text::TextScan;
use lid_base::{Items, Name, Shelf, Text};
use std::alloc::{AllocError, Global};
use std::convert::AsStr;

/// The rows of a file, one by one. It holds the rows of one piece of 65,536 bytes at most, and of the
/// line that began before it.
#[derive(Drop)]
pub struct RowFeed {
    name: Text,
    text: TextScan,
    /// The rows that were scanned and not given, the next one last.
    rows: Vec<Items<bool>>,
}

impl RowFeed {
    /// The rows of the file of this name, whose columns are these, where each row gives `outs` output
    /// bits. Nothing is fetched yet.
    ///
    /// # Errors
    /// Want of memory.
    pub fn start(
        alloc: Global,
        name: &str,
        columns: &[Name],
        outs: u32,
    ) -> Result<RowFeed, AllocError>
        ensures given { (held : Option (List ℕ)) → IfOk result (λ feed. HasGiven held columns.now outs feed []) }
        ensures name { IfOk result (λ feed. feed.name ≡ name.now) }
        ensures came { (whole : Bool) (held : Option (List ℕ)) (asked : Option ℕ) (first : Option (List Fetch))
            → IfOk result (FeedsBy whole held columns.now outs asked first first) }
    {
        Ok(RowFeed {
            name: Text::new(String::from_str(alloc, name)?),
            text: TextScan::start(alloc, columns, outs)?,
            rows: Vec::new(alloc),
        })
    }

    /// Takes the next piece of the text and holds its rows, and at the end of the text the last row.
    fn fill<S: Shelf>(&mut self, shelf: &mut S) -> Result<(), FeedFault>
        ensures given { (columns : List (List ℕ)) (outs : ℕ) (given : List (List Bool)) → self.old.text.count ≡ None → self.old.rows.items ≡ []
            → HasGiven (S.held shelf.old self.old.name) columns outs self.old given
            → OnOk result (HasGiven (S.held shelf.old self.old.name) columns outs self.new given) }
        ensures refused { (columns : List (List ℕ)) (outs : ℕ) (given : List (List Bool)) → self.old.text.count ≡ None
            → HasGiven (S.held shelf.old self.old.name) columns outs self.old given
            → IfErr result (IfRefused (IsRefusedText (S.held shelf.old self.old.name) columns outs)) }
        ensures less { self.old.text.count ≡ None → OnOk result (left_of self.new.text self.new.text.count < left_of self.old.text self.old.text.count) }
        ensures came { (columns : List (List ℕ)) (outs : ℕ) (given : List (List Bool)) (asked : Option ℕ) (first : Option (List Fetch))
            → self.old.text.count ≡ None → self.old.rows.items ≡ []
            → HasGiven (S.held shelf.old self.old.name) columns outs self.old given → IsBelowAsked asked (length given)
            → FeedsBy S.whole (S.held shelf.old self.old.name) columns outs asked first (S.fetches shelf.old) self.old
            → OnOk result (FeedsBy S.whole (S.held shelf.old self.old.name) columns outs asked first (S.fetches shelf.new) self.new) }
        ensures begun { (columns : List (List ℕ)) (outs : ℕ) (given : List (List Bool)) (asked : Option ℕ) (first : Option (List Fetch))
            → self.old.text.count ≡ None → self.old.rows.items ≡ []
            → HasGiven (S.held shelf.old self.old.name) columns outs self.old given → IsBelowAsked asked (length given)
            → FeedsBy S.whole (S.held shelf.old self.old.name) columns outs asked first (S.fetches shelf.old) self.old
            → IfErr result (FailsBy S.whole (S.held shelf.old self.old.name) columns outs asked self.old.name first (S.fetches shelf.new)) }
        ensures still { OnOk result ((q : List ℕ) → S.faults shelf.new q ≡ S.faults shelf.old q) }
        ensures wanting { IfErr result (UnlessRead ((q : List ℕ) → S.faults shelf.new q ≡ S.faults shelf.old q)) }
        ensures name { self.new.name ≡ self.old.name }
        ensures failed { IfErr result (IfRead (Rose (S.faults shelf.old self.old.name) (S.faults shelf.new self.old.name))) }
        ensures kept { S.held shelf.new ≡ S.held shelf.old }
        ensures grows { (q : List ℕ) → S.faults shelf.old q ≤ S.faults shelf.new q }
    {
        let mut rows = Vec::new(self.text.alloc);
        let name = self.name.as_str();
        if let Err(fault) = self.text.take_rows(shelf, name, &mut rows) {
            return Err(fault);
        }
        rows.as_mut_slice().reverse();
        self.rows = rows;
        Ok(())
    }

    /// The next row of the file, or `None` where the text ended without a fault after the rows that
    /// were given. A further piece is fetched only where no row is held.
    ///
    /// # Errors
    /// `Refused` with the fault of `read_rows` for all bytes that were fetched: it comes when the whole
    /// text was fetched, up to one byte more than the 67,108,864 bytes that a rows text may have.
    /// `Read` comes only where the count of the name rose in this call. `Memory` may come at any text.
    /// After one of them nothing is told of further calls.
    pub fn next<S: Shelf>(&mut self, shelf: &mut S) -> Result<Option<Items<bool>>, FeedFault>
        ensures given { (columns : List (List ℕ)) (outs : ℕ) (given : List (List Bool)) → HasGiven (S.held shelf.old self.old.name) columns outs self.old given
            → IfOk result (GivesNext (S.held shelf.old self.old.name) columns outs self.new given) }
        ensures refused { (columns : List (List ℕ)) (outs : ℕ) (given : List (List Bool))
            → HasGiven (S.held shelf.old self.old.name) columns outs self.old given
            → IfErr result (IfRefused (IsRefusedText (S.held shelf.old self.old.name) columns outs)) }
        ensures waits { 0 < length self.old.rows.items → shelf.new ≡ shelf.old }
        ensures came { (columns : List (List ℕ)) (outs : ℕ) (given : List (List Bool)) (asked : Option ℕ) (first : Option (List Fetch))
            → HasGiven (S.held shelf.old self.old.name) columns outs self.old given → IsBelowAsked asked (length given)
            → FeedsBy S.whole (S.held shelf.old self.old.name) columns outs asked first (S.fetches shelf.old) self.old
            → OnOk result (FeedsBy S.whole (S.held shelf.old self.old.name) columns outs asked first (S.fetches shelf.new) self.new) }
        ensures begun { (columns : List (List ℕ)) (outs : ℕ) (given : List (List Bool)) (asked : Option ℕ) (first : Option (List Fetch))
            → HasGiven (S.held shelf.old self.old.name) columns outs self.old given → IsBelowAsked asked (length given)
            → FeedsBy S.whole (S.held shelf.old self.old.name) columns outs asked first (S.fetches shelf.old) self.old
            → IfErr result (FailsBy S.whole (S.held shelf.old self.old.name) columns outs asked self.old.name first (S.fetches shelf.new)) }
        ensures last { IfOk result (λ row. row ≡ None → IsSome self.new.text.count) }
        ensures still { OnOk result ((q : List ℕ) → S.faults shelf.new q ≡ S.faults shelf.old q) }
        ensures wanting { IfErr result (UnlessRead ((q : List ℕ) → S.faults shelf.new q ≡ S.faults shelf.old q)) }
        ensures name { self.new.name ≡ self.old.name }
        ensures failed { IfErr result (IfRead (Rose (S.faults shelf.old self.old.name) (S.faults shelf.new self.old.name))) }
        ensures kept { S.held shelf.new ≡ S.held shelf.old }
        ensures grows { (q : List ℕ) → S.faults shelf.old q ≤ S.faults shelf.new q }
    {
        while self.rows.as_slice().is_empty() && self.text.count.is_none() {
            if let Err(fault) = self.fill(shelf) {
                return Err(fault);
            }
        }
        Ok(self.rows.pop())
    }
}

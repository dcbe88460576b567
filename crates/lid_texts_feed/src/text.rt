//! A rows text that is fetched piece by piece and scanned.

ghost use Rattle.std.specs.Prelude.{◌≡◌, ℕ, ◌+◌, ◌≤◌, ◌<◌, Bool, true, List, [], length, Option, None, IsSome, IfOk, IfErr, OnOk, OnErr};
ghost use Rattle.lid_texts.specs.Scans.{ended_rows};
ghost use Rattle.lid_base.specs.declared.outside.Fetch.{Fetch};
ghost use Rattle.lid_base.specs.Outside.{Rose, Came, one_fetch};
ghost use Rattle.lid_texts.specs.Scanned.{HasRead};
ghost use Rattle.lid_texts_feed.specs.Feeds.{most_bytes, IsText, IsRefusedText, IfRead, IfRefused, UnlessRead};
ghost use Rattle.lid_texts_feed.specs.Fetching.{ScansPiece, HasFetched, TakesPiece, AreNeeded, CameSo, CameInPart, ScansBy, FailsBy, IsBelowAsked, Knows, KnowsMore, left_of};

use crate::fault::{FeedFault, refused, unfetched};
use lid_base::{Items, Name, Shelf};
use lid_base_io::{FetchFault, fetch_at};
use lid_texts::RowScan;
use std::alloc::{AllocError, Global};

/// How many bytes are fetched at a time.
const PIECE: usize = 65_536;

/// The most bytes of a text that are fetched: one more than it may have.
const MOST_FETCHED: usize = 67_108_865;

/// A rows text that is fetched piece by piece and scanned. What it holds does not grow with the rows.
#[derive(Drop)]
pub(crate) struct TextScan {
    pub(crate) alloc: Global,
    pub(crate) scan: RowScan,
    /// How many bytes were fetched.
    pub(crate) fetched: usize,
    /// How many rows the text has, once it has ended.
    pub(crate) count: Option<u64>,
}

/// Fetches bytes of a file that come at a place, by one fetch, and scans them. It answers how many
/// there are; for an `into` that is not empty, 0 bytes are the end.
///
/// # Errors
/// `Read` comes only where the count of that name rose in this call.
fn scan_piece<S: Shelf>(
    scan: &mut RowScan,
    shelf: &mut S,
    name: &str,
    at: u64,
    into: &mut [u8],
    rows: &mut Vec<Items<bool>>,
) -> Result<usize, FetchFault>
    ensures scanned { (bytes : List ℕ) → HasRead scan.old bytes → length bytes ≡ at
        → IfOk result (ScansPiece S.whole (S.held shelf.old name.now) scan.old scan.new bytes (length into.old) rows.old.items rows.new.items) }
    ensures within { IfOk result (λ n. n ≤ length into.old) }
    ensures columns { scan.new.columns ≡ scan.old.columns }
    ensures outs { scan.new.outs ≡ scan.old.outs }
    ensures came { Came (S.fetches shelf.old) (S.fetches shelf.new) (one_fetch name.now at (length into.old)) }
    ensures still { OnOk result ((q : List ℕ) → S.faults shelf.new q ≡ S.faults shelf.old q) }
    ensures wanting { IfErr result (λ e. e ≡ FetchFault.Memory → (q : List ℕ) → S.faults shelf.new q ≡ S.faults shelf.old q) }
    ensures failed { IfErr result (λ e. e ≡ FetchFault.Read → Rose (S.faults shelf.old name.now) (S.faults shelf.new name.now)) }
    ensures kept { S.held shelf.new ≡ S.held shelf.old }
    ensures grows { (q : List ℕ) → S.faults shelf.old q ≤ S.faults shelf.new q }
{
    let got = fetch_at(shelf, name, at, into)?;
    scan.feed(&into[..got], rows)?;
    Ok(got)
}

impl TextScan {
    /// A text of which no byte was fetched.
    ///
    /// # Errors
    /// Want of memory.
    pub(crate) fn start(alloc: Global, columns: &[Name], outs: u32) -> Result<TextScan, AllocError>
        ensures knows { (held : Option (List ℕ)) → IfOk result (λ text. Knows held columns.now outs text text.count []) }
        ensures goes { IfOk result (λ text. text.count ≡ None) }
        ensures fresh { IfOk result (λ text. text.fetched ≡ 0) }
    {
        Ok(TextScan {
            alloc,
            scan: RowScan::start(alloc, columns, outs)?,
            fetched: 0,
            count: None,
        })
    }

    /// Fetches the next piece of the text and scans it; whether there was one.
    fn take_piece<S: Shelf>(
        &mut self,
        shelf: &mut S,
        name: &str,
        rows: &mut Vec<Items<bool>>,
    ) -> Result<bool, FetchFault>
        ensures takes { (columns : List (List ℕ)) (outs : ℕ) (bytes : List ℕ) → HasFetched (S.held shelf.old name.now) columns outs self.old bytes
            → IfOk result (TakesPiece (S.held shelf.old name.now) columns outs self.new bytes rows.old.items rows.new.items) }
        ensures further { IfOk result (λ more. more ≡ true → (self.old.fetched ≤ most_bytes) × (self.old.fetched < self.new.fetched)) }
        ensures count { self.new.count ≡ self.old.count }
        ensures came { (columns : List (List ℕ)) (outs : ℕ) (bytes : List ℕ) (asked : Option ℕ) (first : Option (List Fetch))
            → HasFetched (S.held shelf.old name.now) columns outs self.old bytes → IsBelowAsked asked (length (ended_rows columns outs bytes))
            → CameSo (AreNeeded (S.held shelf.old name.now) columns outs asked) S.whole (S.held shelf.old name.now) name.now (length bytes)
            first (S.fetches shelf.old) true
            → IfOk result (CameSo (AreNeeded (S.held shelf.old name.now) columns outs asked) S.whole (S.held shelf.old name.now) name.now self.new.fetched
            first (S.fetches shelf.new)) }
        ensures begun { (columns : List (List ℕ)) (outs : ℕ) (bytes : List ℕ) (asked : Option ℕ) (first : Option (List Fetch))
            → HasFetched (S.held shelf.old name.now) columns outs self.old bytes → IsBelowAsked asked (length (ended_rows columns outs bytes))
            → CameSo (AreNeeded (S.held shelf.old name.now) columns outs asked) S.whole (S.held shelf.old name.now) name.now (length bytes)
            first (S.fetches shelf.old) true
            → OnErr result (CameInPart (AreNeeded (S.held shelf.old name.now) columns outs asked) S.whole (S.held shelf.old name.now) name.now
            first (S.fetches shelf.new)) }
        ensures still { OnOk result ((q : List ℕ) → S.faults shelf.new q ≡ S.faults shelf.old q) }
        ensures wanting { IfErr result (λ e. e ≡ FetchFault.Memory → (q : List ℕ) → S.faults shelf.new q ≡ S.faults shelf.old q) }
        ensures failed { IfErr result (λ e. e ≡ FetchFault.Read → Rose (S.faults shelf.old name.now) (S.faults shelf.new name.now)) }
        ensures kept { S.held shelf.new ≡ S.held shelf.old }
        ensures grows { (q : List ℕ) → S.faults shelf.old q ≤ S.faults shelf.new q }
    {
        if self.fetched >= MOST_FETCHED {
            return Ok(false);
        }
        let room = PIECE.min(MOST_FETCHED - self.fetched);
        let mut buffer = vec![in self.alloc; 0u8; room]?;
        let at = self.fetched as u64;
        let got = scan_piece(&mut self.scan, shelf, name, at, &mut buffer, rows)?;
        self.fetched += got;
        Ok(got > 0)
    }

    /// Takes the end of the text.
    fn finish(&mut self, rows: &mut Vec<Items<bool>>) -> Result<(), FeedFault>
        ensures finished { (columns : List (List ℕ)) (outs : ℕ) (bytes : List ℕ) (known : List (List Bool)) (held : Option (List ℕ))
            → HasFetched held columns outs self.old bytes → IsText held bytes → known ≡ ended_rows columns outs bytes
            → OnOk result (KnowsMore held columns outs self.new known rows.old.items rows.new.items) }
        ensures refused { (columns : List (List ℕ)) (outs : ℕ) (bytes : List ℕ) (held : Option (List ℕ))
            → HasFetched held columns outs self.old bytes → IsText held bytes
            → IfErr result (IfRefused (IsRefusedText held columns outs)) }
        ensures unread { IfErr result (IfRead ⊥) }
        ensures ended { OnOk result (IsSome self.new.count) }
    {
        match self.scan.finish(rows) {
            Ok(count) => {
                self.count = Some(count);
                Ok(())
            }
            Err(fault) => Err(refused(fault)),
        }
    }

    /// Takes the next piece of the text, and appends the rows whose lines end in it. At the end of the
    /// text it appends the last row where its line was not ended, and keeps how many rows there are.
    ///
    /// # Errors
    /// `Read` comes only where the count of that name rose in this call. A fault of the text comes when
    /// all of it was fetched.
    pub(crate) fn take_rows<S: Shelf>(
        &mut self,
        shelf: &mut S,
        name: &str,
        rows: &mut Vec<Items<bool>>,
    ) -> Result<(), FeedFault>
        ensures knows { (columns : List (List ℕ)) (outs : ℕ) (known : List (List Bool)) → self.old.count ≡ None
            → Knows (S.held shelf.old name.now) columns outs self.old self.old.count known
            → OnOk result (KnowsMore (S.held shelf.old name.now) columns outs self.new known rows.old.items rows.new.items) }
        ensures refused { (columns : List (List ℕ)) (outs : ℕ) (known : List (List Bool)) → self.old.count ≡ None
            → Knows (S.held shelf.old name.now) columns outs self.old self.old.count known
            → IfErr result (IfRefused (IsRefusedText (S.held shelf.old name.now) columns outs)) }
        ensures less { self.old.count ≡ None → OnOk result (left_of self.new self.new.count < left_of self.old self.old.count) }
        ensures came { (columns : List (List ℕ)) (outs : ℕ) (known : List (List Bool)) (asked : Option ℕ) (first : Option (List Fetch))
            → self.old.count ≡ None → Knows (S.held shelf.old name.now) columns outs self.old self.old.count known → IsBelowAsked asked (length known)
            → ScansBy S.whole (S.held shelf.old name.now) columns outs asked name.now first (S.fetches shelf.old) self.old
            → OnOk result (ScansBy S.whole (S.held shelf.old name.now) columns outs asked name.now first (S.fetches shelf.new) self.new) }
        ensures begun { (columns : List (List ℕ)) (outs : ℕ) (known : List (List Bool)) (asked : Option ℕ) (first : Option (List Fetch))
            → self.old.count ≡ None → Knows (S.held shelf.old name.now) columns outs self.old self.old.count known → IsBelowAsked asked (length known)
            → ScansBy S.whole (S.held shelf.old name.now) columns outs asked name.now first (S.fetches shelf.old) self.old
            → IfErr result (FailsBy S.whole (S.held shelf.old name.now) columns outs asked name.now first (S.fetches shelf.new)) }
        ensures still { OnOk result ((q : List ℕ) → S.faults shelf.new q ≡ S.faults shelf.old q) }
        ensures wanting { IfErr result (UnlessRead ((q : List ℕ) → S.faults shelf.new q ≡ S.faults shelf.old q)) }
        ensures failed { IfErr result (IfRead (Rose (S.faults shelf.old name.now) (S.faults shelf.new name.now))) }
        ensures kept { S.held shelf.new ≡ S.held shelf.old }
        ensures grows { (q : List ℕ) → S.faults shelf.old q ≤ S.faults shelf.new q }
    {
        let more = match self.take_piece(shelf, name, rows) {
            Ok(more) => more,
            Err(fault) => return Err(unfetched(fault)),
        };
        if more {
            return Ok(());
        }
        self.finish(rows)
    }
}

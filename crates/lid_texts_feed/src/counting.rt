//! How many rows a file has.

ghost use Rattle.std.specs.Prelude.{◌≡◌, ℕ, ◌≤◌, Bool, List, Option, None, IfOk, IfErr, OnOk};
ghost use Rattle.lid_base.specs.declared.outside.Fetch.{Fetch};
ghost use Rattle.lid_base.specs.Outside.{Rose};
ghost use Rattle.lid_base_io.specs.Calls.{CameAs, IsFetching};
ghost use Rattle.lid_texts_feed.specs.Feeds.{most_bytes, HasRows, IsRefusedText, IfRead, IfRefused, IsFetchedFor, UnlessRead};
ghost use Rattle.lid_texts_feed.specs.Fetching.{ScansBy, Knows};

use crate::fault::FeedFault;
use crate::text::TextScan;
use lid_base::{Name, Shelf};
use std::alloc::Global;

/// Takes a text to its end, and answers how many rows it has.
fn count_all<S: Shelf>(text: &mut TextScan, shelf: &mut S, name: &str) -> Result<u64, FeedFault>
    ensures counted { (columns : List (List ℕ)) (outs : ℕ) (known : List (List Bool))
        → Knows (S.held shelf.old name.now) columns outs text.old text.old.count known
        → IfOk result (HasRows (S.held shelf.old name.now) columns outs) }
    ensures refused { (columns : List (List ℕ)) (outs : ℕ) (known : List (List Bool))
        → Knows (S.held shelf.old name.now) columns outs text.old text.old.count known
        → IfErr result (IfRefused (IsRefusedText (S.held shelf.old name.now) columns outs)) }
    ensures came { (columns : List (List ℕ)) (outs : ℕ) (known : List (List Bool)) (first : Option (List Fetch))
        → Knows (S.held shelf.old name.now) columns outs text.old text.old.count known
        → ScansBy S.whole (S.held shelf.old name.now) columns outs None name.now first (S.fetches shelf.old) text.old
        → OnOk result (CameAs first (S.fetches shelf.new) (IsFetching S.whole (S.held shelf.old name.now) name.now most_bytes)) }
    ensures begun { (columns : List (List ℕ)) (outs : ℕ) (known : List (List Bool)) (first : Option (List Fetch))
        → Knows (S.held shelf.old name.now) columns outs text.old text.old.count known
        → ScansBy S.whole (S.held shelf.old name.now) columns outs None name.now first (S.fetches shelf.old) text.old
        → IfErr result (λ e. CameAs first (S.fetches shelf.new) (IsFetchedFor S.whole (S.held shelf.old name.now) name.now e)) }
    ensures still { OnOk result ((q : List ℕ) → S.faults shelf.new q ≡ S.faults shelf.old q) }
    ensures wanting { IfErr result (UnlessRead ((q : List ℕ) → S.faults shelf.new q ≡ S.faults shelf.old q)) }
    ensures failed { IfErr result (IfRead (Rose (S.faults shelf.old name.now) (S.faults shelf.new name.now))) }
    ensures kept { S.held shelf.new ≡ S.held shelf.old }
    ensures grows { (q : List ℕ) → S.faults shelf.old q ≤ S.faults shelf.new q }
{
    let mut rows = Vec::new(text.alloc);
    loop {
        if let Some(count) = text.count {
            return Ok(count);
        }
        rows.clear();
        if let Err(fault) = text.take_rows(shelf, name, &mut rows) {
            return Err(fault);
        }
    }
}

/// Reads the text of a file whose columns are these, where each row gives `outs` output bits, and
/// answers how many rows it has. The file is fetched whole, in pieces of 65,536 bytes, up to one byte
/// more than the 67,108,864 bytes that a rows text may have, and the rows of a piece are let go before
/// the next one is fetched.
///
/// # Errors
/// `Refused` with the fault of `read_rows` for all bytes that were fetched. `Read` comes only where the
/// count of that name rose in this call. `Memory` may come at any text.
pub fn count_rows<S: Shelf>(
    alloc: Global,
    shelf: &mut S,
    name: &str,
    columns: &[Name],
    outs: u32,
) -> Result<u64, FeedFault>
    ensures counted { IfOk result (HasRows (S.held shelf.old name.now) columns.now outs) }
    ensures refused { IfErr result (IfRefused (IsRefusedText (S.held shelf.old name.now) columns.now outs)) }
    ensures came { OnOk result (CameAs (S.fetches shelf.old) (S.fetches shelf.new) (IsFetching S.whole (S.held shelf.old name.now) name.now most_bytes)) }
    ensures begun { IfErr result (λ e. CameAs (S.fetches shelf.old) (S.fetches shelf.new) (IsFetchedFor S.whole (S.held shelf.old name.now) name.now e)) }
    ensures still { OnOk result ((q : List ℕ) → S.faults shelf.new q ≡ S.faults shelf.old q) }
    ensures wanting { IfErr result (UnlessRead ((q : List ℕ) → S.faults shelf.new q ≡ S.faults shelf.old q)) }
    ensures failed { IfErr result (IfRead (Rose (S.faults shelf.old name.now) (S.faults shelf.new name.now))) }
    ensures kept { S.held shelf.new ≡ S.held shelf.old }
    ensures grows { (q : List ℕ) → S.faults shelf.old q ≤ S.faults shelf.new q }
{
    let Ok(mut text) = TextScan::start(alloc, columns, outs) else {
        return Err(FeedFault::Memory);
    };
    count_all(&mut text, shelf, name)
}

//! Fetching all of a file.

ghost use Rattle.std.specs.Prelude.{◌≡◌, ℕ, ◌+◌, ◌^◌, ◌≤◌, ◌<◌, List, length, take, ◌++◌, IfOk, IfErr, IfSome, OnOk, OnErr};
ghost use Rattle.lid_base.specs.Outside.{Rose, Came, one_fetch};
ghost use Rattle.lid_base_io.specs.Calls.{CameAs, IsFetching, IsFetchingPart};
ghost use Rattle.lid_base_io.specs.Transfer.{FetchedNext};

use lid_base::Shelf;
use std::alloc::{AllocError, Global};

/// How many bytes are fetched at a time.
const PIECE: usize = 65_536;

/// Why a file could not be fetched.
#[derive(Clone, Copy, Debug, PartialEq, Eq)]
pub enum FetchFault {
    /// A fetch failed.
    Read,
    /// There was no memory.
    Memory,
}

impl From<AllocError> for FetchFault {
    ghost use Rattle.std.specs.Prelude.{◌≡◌};
    ghost use Rattle.lid_base_io.specs.declared.fetching.FetchFault.TheVariants.{Memory};

    ghost from_gives = { λ _ e. e ≡ Memory };

    fn from(_error: AllocError) -> FetchFault {
        FetchFault::Memory
    }
}

/// Fetches a file from its first byte to its end, or until one byte more than `limit` is held.
/// The end is a fetch of 0 bytes. Each fetch has room for 65,536 bytes, but for none past the one
/// that is one more than the limit.
///
/// # Errors
/// `Read` comes only where the count of that name rose in this call. At an error some first of its
/// fetches were made.
pub fn fetch_all<S: Shelf>(
    alloc: Global,
    shelf: &mut S,
    name: &str,
    limit: usize,
) -> Result<Vec<u8>, FetchFault>
    requires { limit < 2 ^ 62 }
    ensures told { IfOk result (λ v. IfSome (S.held shelf.old name.now) (λ bytes. v.items ≡ take (limit + 1) bytes)) }
    ensures short { IfOk result (λ v. length v.items ≤ limit + 1) }
    ensures fetched { OnOk result (CameAs (S.fetches shelf.old) (S.fetches shelf.new) (IsFetching S.whole (S.held shelf.old name.now) name.now limit)) }
    ensures begun { OnErr result (CameAs (S.fetches shelf.old) (S.fetches shelf.new) (IsFetchingPart S.whole (S.held shelf.old name.now) name.now limit)) }
    ensures still { OnOk result ((q : List ℕ) → S.faults shelf.new q ≡ S.faults shelf.old q) }
    ensures wanting { IfErr result (λ e. e ≡ FetchFault.Memory → (q : List ℕ) → S.faults shelf.new q ≡ S.faults shelf.old q) }
    ensures failed { IfErr result (λ e. e ≡ FetchFault.Read → Rose (S.faults shelf.old name.now) (S.faults shelf.new name.now)) }
    ensures kept { S.held shelf.new ≡ S.held shelf.old }
    ensures grows { (q : List ℕ) → S.faults shelf.old q ≤ S.faults shelf.new q }
{
    let mut buffer = vec![in alloc; 0u8; PIECE]?;
    fetch_pieces(alloc, shelf, name, limit, &mut buffer)
}

fn fetch_pieces<S: Shelf>(
    alloc: Global,
    shelf: &mut S,
    name: &str,
    limit: usize,
    buffer: &mut [u8],
) -> Result<Vec<u8>, FetchFault>
    requires bounded { limit < 2 ^ 62 }
    requires room { length buffer.old ≡ 65536 }
    ensures told { IfOk result (λ v. IfSome (S.held shelf.old name.now) (λ bytes. v.items ≡ take (limit + 1) bytes)) }
    ensures short { IfOk result (λ v. length v.items ≤ limit + 1) }
    ensures fetched { OnOk result (CameAs (S.fetches shelf.old) (S.fetches shelf.new) (IsFetching S.whole (S.held shelf.old name.now) name.now limit)) }
    ensures begun { OnErr result (CameAs (S.fetches shelf.old) (S.fetches shelf.new) (IsFetchingPart S.whole (S.held shelf.old name.now) name.now limit)) }
    ensures still { OnOk result ((q : List ℕ) → S.faults shelf.new q ≡ S.faults shelf.old q) }
    ensures wanting { IfErr result (λ e. e ≡ FetchFault.Memory → (q : List ℕ) → S.faults shelf.new q ≡ S.faults shelf.old q) }
    ensures failed { IfErr result (λ e. e ≡ FetchFault.Read → Rose (S.faults shelf.old name.now) (S.faults shelf.new name.now)) }
    ensures kept { S.held shelf.new ≡ S.held shelf.old }
    ensures grows { (q : List ℕ) → S.faults shelf.old q ≤ S.faults shelf.new q }
{
    let mut bytes = Vec::new(alloc);
    while bytes.len() <= limit {
        let want = buffer.len().min(limit + 1 - bytes.len());
        let got = fetch_piece(shelf, name, &mut bytes, &mut buffer[..want])?;
        if got == 0 {
            return Ok(bytes);
        }
    }
    Ok(bytes)
}

/// Fetches a piece that comes after `at` bytes of a file, by one fetch, and answers how many bytes it
/// has. For an `into` that is not empty, 0 bytes are the end.
///
/// # Errors
/// `Read` comes only where the count of that name rose in this call; `into` may then hold any bytes.
pub fn fetch_at<S: Shelf>(
    shelf: &mut S,
    name: &str,
    at: u64,
    into: &mut [u8],
) -> Result<usize, FetchFault>
    ensures within { IfOk result (λ n. n ≤ length into.new) }
    ensures told { IfOk result (λ n. (before : List ℕ) → length before ≡ at
        → FetchedNext S.whole (S.held shelf.old name.now) before (before ++ take n into.new) (length into.old)) }
    ensures came { Came (S.fetches shelf.old) (S.fetches shelf.new) (one_fetch name.now at (length into.old)) }
    ensures still { OnOk result ((q : List ℕ) → S.faults shelf.new q ≡ S.faults shelf.old q) }
    ensures failed { IfErr result (λ e. (e ≡ FetchFault.Read) × Rose (S.faults shelf.old name.now) (S.faults shelf.new name.now)) }
    ensures kept { S.held shelf.new ≡ S.held shelf.old }
    ensures grows { (q : List ℕ) → S.faults shelf.old q ≤ S.faults shelf.new q }
{
    let Ok(got) = shelf.fetch(name, at, into) else {
        return Err(FetchFault::Read);
    };
    Ok(got)
}

/// Fetches a piece that comes after the bytes fetched so far, by one fetch, appends it to them, and
/// answers how many bytes it has. For an `into` that is not empty, 0 bytes are the end.
///
/// # Errors
/// `Read` comes only where the count of that name rose in this call. The bytes fetched so far stay.
fn fetch_piece<S: Shelf>(
    shelf: &mut S,
    name: &str,
    bytes: &mut Vec<u8>,
    into: &mut [u8],
) -> Result<usize, FetchFault>
    requires { length bytes.old.items < 2 ^ 62 }
    ensures within { IfOk result (λ n. (n ≤ length into.old) × (length bytes.new.items ≡ length bytes.old.items + n)) }
    ensures unchanged { OnErr result (bytes.new.items ≡ bytes.old.items) }
    ensures told { IfOk result (λ n. FetchedNext S.whole (S.held shelf.old name.now) bytes.old.items bytes.new.items (length into.old)) }
    ensures came { Came (S.fetches shelf.old) (S.fetches shelf.new) (one_fetch name.now (length bytes.old.items) (length into.old)) }
    ensures still { OnOk result ((q : List ℕ) → S.faults shelf.new q ≡ S.faults shelf.old q) }
    ensures wanting { IfErr result (λ e. e ≡ FetchFault.Memory → (q : List ℕ) → S.faults shelf.new q ≡ S.faults shelf.old q) }
    ensures failed { IfErr result (λ e. e ≡ FetchFault.Read → Rose (S.faults shelf.old name.now) (S.faults shelf.new name.now)) }
    ensures kept { S.held shelf.new ≡ S.held shelf.old }
    ensures grows { (q : List ℕ) → S.faults shelf.old q ≤ S.faults shelf.new q }
{
    let got = fetch_at(shelf, name, bytes.len() as u64, into)?;
    bytes.extend_from_slice(&into[..got])?;
    Ok(got)
}

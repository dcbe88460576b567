//! Files that are fetched whole, over a shelf that notes the fetches.

use crate::tests::base::file;
use crate::tests::pieces::text_of;
use lid_base::{Fetch, File, MemShelf, Noting};
use lid_base_io::fetch_all;
use std::alloc::{AllocError, Global};

/// The greatest limit of a test.
const MOST: usize = 300_000;

/// How many bytes a file has, its limit, which fetch fails, and the place of each fetch and for how
/// many bytes it has room.
static FILES: [(usize, usize, usize, &[(u64, usize)]); 9] = [
    (0, 10, 9, &[(0, 11)]),
    (5, 10, 9, &[(0, 11), (5, 6)]),
    (10, 10, 9, &[(0, 11), (10, 1)]),
    (11, 10, 9, &[(0, 11)]),
    (30, 10, 9, &[(0, 11)]),
    (65_536, 99_999, 9, &[(0, 65_536), (65_536, 34_464)]),
    (200_000, 99_999, 9, &[(0, 65_536), (65_536, 34_464)]),
    (
        131_073,
        200_000,
        9,
        &[
            (0, 65_536),
            (65_536, 65_536),
            (131_072, 65_536),
            (131_073, 65_536),
        ],
    ),
    (200_000, MOST, 2, &[(0, 65_536), (65_536, 65_536)]),
];

/// A file of so many bytes.
fn files_of(alloc: Global, size: usize) -> Result<Vec<File>, AllocError> {
    let bytes = text_of(alloc, size)?;
    let mut files = Vec::new(alloc);
    files.push(file(alloc, b"a", bytes.as_slice())?)?;
    Ok(files)
}

/// A shelf with that file, on which a call fails.
fn shelf_of(
    alloc: Global,
    size: usize,
    failing: usize,
) -> Result<Noting<MemShelf, Fetch>, AllocError> {
    let files = files_of(alloc, size)?;
    let failing = Vec::from_slice(alloc, &[failing as u64])?;
    Ok(Noting::new(alloc, MemShelf::new(files, failing)))
}

/// Whether these fetches of the file were made, and no others.
fn are_fetches(calls: Option<&[Fetch]>, wanted: &[(u64, usize)]) -> bool {
    let Some(calls) = calls else {
        return false;
    };
    if calls.len() != wanted.len() {
        return false;
    }
    for (call, (at, room)) in calls.iter().zip(wanted) {
        if call.name.as_slice() != b"a".as_slice() || call.at != *at || call.room != *room {
            return false;
        }
    }
    true
}

/// Whether a file is fetched by these fetches, and fails where one of them does.
fn is_fetched_by(
    alloc: Global,
    size: usize,
    limit: usize,
    failing: usize,
    wanted: &[(u64, usize)],
) -> Result<bool, AllocError> {
    if limit > MOST {
        return Ok(false);
    }
    let mut shelf = shelf_of(alloc, size, failing)?;
    let fetched = fetch_all(alloc, &mut shelf, "a", limit);
    Ok(fetched.is_ok() == (failing > wanted.len()) && are_fetches(shelf.calls(), wanted))
}

#[test]
fn files_are_fetched_in_pieces(rt: HostRuntime) {
    for (size, limit, failing, wanted) in &FILES {
        let fetched = is_fetched_by(rt.alloc(), *size, *limit, *failing, wanted);
        assert!(rt; fetched == Ok(true), "{size} {limit} {failing}");
    }
}

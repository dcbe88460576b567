//! Texts of rows that come in pieces: the answers are those of the whole text.

use crate::tests::rows::{NO_FAULT, Told, columns, rows_without_columns, told};
use lid_base::{Items, Name};
use lid_texts::{RowScan, VecFault, print_rows, read_rows};
use std::alloc::Global;

/// Feeds a text in pieces of so many bytes; whether there was memory.
fn feed_all(scan: &mut RowScan, text: &[u8], size: usize, into: &mut Vec<Items<bool>>) -> bool {
    for piece in text.chunks(size.max(1)) {
        if scan.feed(piece, into).is_err() {
            return false;
        }
    }
    true
}

/// What is told at the end of a text, and how many rows it has.
fn end_of(scan: &mut RowScan, into: &mut Vec<Items<bool>>) -> Told {
    match scan.finish(into) {
        Ok(rows) => (NO_FAULT.0, rows),
        Err(fault) => told(fault),
    }
}

/// What is told of a text in pieces, where the rows are appended.
fn told_in_pieces(
    alloc: Global,
    text: &[u8],
    names: &[Name],
    outs: u32,
    size: usize,
    into: &mut Vec<Items<bool>>,
) -> Told {
    let Ok(mut scan) = RowScan::start(alloc, names, outs) else {
        return ("Memory", 0);
    };
    if !feed_all(&mut scan, text, size, into) {
        return ("Memory", 0);
    }
    let failed = scan.failed();
    let end = end_of(&mut scan, into);
    if failed && end.0.is_empty() {
        return ("failed alone", 0);
    }
    end
}

/// Whether bits are the rows of a whole text.
fn are_rows(alloc: Global, text: &[u8], names: &[Name], bits: &[Items<bool>]) -> bool {
    let Ok(rows) = read_rows(alloc, text, names, 68) else {
        return false;
    };
    rows.bits.len() == bits.len()
        && rows
            .bits
            .as_slice()
            .iter()
            .zip(bits)
            .all(|(row, other)| row.as_slice() == other.as_slice())
}

/// Whether a text in pieces of so many bytes has this answer, and these rows where it has no fault.
fn is_scanned(alloc: Global, text: &[u8], letters: &[u8], size: usize, want: Told) -> bool {
    let Ok(names) = columns(alloc, letters) else {
        return false;
    };
    let mut bits = Vec::new(alloc);
    let end = told_in_pieces(alloc, text, names.as_slice(), 68, size, &mut bits);
    end == want && (!want.0.is_empty() || are_rows(alloc, text, names.as_slice(), bits.as_slice()))
}

/// A text with comments, continued lines, carriage returns and bytes that none but a comment has, and
/// its rows: the last line is not ended.
static GOOD: &[u8] =
    b"# head \x01\r\n\nd e\\\n f # x\n0 1\\\r\n1\n\n10 1\t# c \xff\r\n011\\\n\n# 1 \\\n0\\\n00\n 1 1 1";

/// The same with a row against the form on its line 9.
static BAD: &[u8] = b"# head \x01\r\n\nd e\\\n f # x\n0 1\\\r\n1\n\n10 1\t# c\r\n1 x1\\\n\n000\n";

#[test]
fn pieces_of_any_size_give_the_answers_of_the_whole(rt: HostRuntime) {
    for size in [1, 2, 3, 7, 65_536] {
        assert!(rt;
            is_scanned(rt.alloc(), GOOD, b"def", size, ("", 5)),
            "{size}"
        );
        assert!(rt;
            is_scanned(rt.alloc(), BAD, b"def", size, ("Char", 9)),
            "{size}"
        );
        assert!(rt;
            is_scanned(rt.alloc(), b"d\n1\n0 1\n1\n", b"d", size, ("Width", 3)),
            "{size}"
        );
        assert!(rt;
            is_scanned(rt.alloc(), b"", b"d", size, ("Header", 0)),
            "{size}"
        );
    }
}

/// Whether a text that is cut at a byte has this answer.
fn is_cut(alloc: Global, text: &[u8], letters: &[u8], cut: usize, want: Told) -> bool {
    let Ok(names) = columns(alloc, letters) else {
        return false;
    };
    let Ok(mut scan) = RowScan::start(alloc, names.as_slice(), 1) else {
        return false;
    };
    let cut = cut.min(text.len());
    let mut bits = Vec::new(alloc);
    scan.feed(&text[..cut], &mut bits).is_ok()
        && scan.feed(&text[cut..], &mut bits).is_ok()
        && end_of(&mut scan, &mut bits) == want
        && (!want.0.is_empty() || are_rows(alloc, text, names.as_slice(), bits.as_slice()))
}

#[test]
fn a_cut_at_any_byte_changes_nothing(rt: HostRuntime) {
    for cut in 0..=GOOD.len() {
        assert!(rt; is_cut(rt.alloc(), GOOD, b"def", cut, ("", 5)), "{cut}");
    }
    for cut in 0..=BAD.len() {
        assert!(rt; is_cut(rt.alloc(), BAD, b"def", cut, ("Char", 9)), "{cut}");
    }
}

/// How many rows there are without columns, how many output bits each gives, and what is told.
static MANY: [(u32, u32, Told); 4] = [
    (1_000_000, 1, ("", 1_000_000)),
    (1_000_001, 1, ("Limit Rows", 1_000_001)),
    (986_895, 68, ("", 986_895)),
    (986_896, 68, ("Limit OutBits", 67_108_928)),
];

/// What is told of a text of rows without columns, in large pieces.
fn told_of_many(alloc: Global, rows: u32, outs: u32) -> Told {
    let Ok(text) = rows_without_columns(alloc, rows) else {
        return ("Memory", 0);
    };
    let mut bits = Vec::new(alloc);
    told_in_pieces(alloc, text.as_slice(), &[], outs, 65_536, &mut bits)
}

#[test]
fn limits_are_those_of_the_whole(rt: HostRuntime) {
    for (rows, outs, want) in &MANY {
        assert_eq!(rt; told_of_many(rt.alloc(), *rows, *outs), *want, "{rows}");
    }
}

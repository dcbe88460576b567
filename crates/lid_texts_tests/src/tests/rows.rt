//! Texts of rows with the answers that the format gives them, worked out by hand.

use lid_base::{Name, Which, copy_name};
use lid_texts::{Rows, VecFault, print_rows, read_rows};
use std::alloc::{AllocError, Global};

/// What is told of a text: the name of its fault, with the line or the count.
pub(crate) type Told = (&'static str, u64);

pub(crate) const NO_FAULT: Told = ("", 0);

fn told_limit(which: Which, count: u64) -> Told {
    match which {
        Which::Rows => ("Limit Rows", count),
        Which::OutBits => ("Limit OutBits", count),
        Which::FileBytes => ("Limit FileBytes", count),
        _ => ("Limit of another thing", count),
    }
}

pub(crate) fn told(fault: VecFault) -> Told {
    match fault {
        VecFault::Header => ("Header", 0),
        VecFault::Width { line } => ("Width", u64::from(line)),
        VecFault::Char { line } => ("Char", u64::from(line)),
        VecFault::Limit { which, count } => told_limit(which, count),
        VecFault::Changed { rows, found: _ } => ("Changed", rows),
        VecFault::Memory => ("Memory", 0),
    }
}

/// The names of these one-letter columns.
pub(crate) fn columns(alloc: Global, letters: &[u8]) -> Result<Vec<Name>, AllocError> {
    let mut names = Vec::new(alloc);
    for letter in letters {
        names.push(copy_name(alloc, &[*letter])?)?;
    }
    Ok(names)
}

/// The rows of a text under one-letter columns, where each row gives so many output bits.
fn rows_of(alloc: Global, text: &[u8], letters: &[u8], outs: u32) -> Result<Rows, VecFault> {
    match columns(alloc, letters) {
        Ok(names) => read_rows(alloc, text, names.as_slice(), outs),
        Err(_) => Err(VecFault::Memory),
    }
}

/// What is told of a text.
fn told_of(alloc: Global, text: &[u8], letters: &[u8], outs: u32) -> Told {
    match rows_of(alloc, text, letters, outs) {
        Ok(_) => NO_FAULT,
        Err(fault) => told(fault),
    }
}

/// Whether a text, read and printed again, is this; nothing where it is no rows.
fn is_printed(alloc: Global, text: &[u8], letters: &[u8], want: &[u8]) -> bool {
    let Ok(rows) = rows_of(alloc, text, letters, 1) else {
        return want.is_empty();
    };
    let mut into = Vec::new(alloc);
    print_rows(&rows, &mut into).is_ok() && into.as_slice() == want
}

/// Whether the rows are one column of this name and these bits.
fn are_bits(rows: &Rows, name: &[u8], bits: &[bool]) -> bool {
    let columns = rows.columns.as_slice();
    columns.len() == 1
        && columns[0].as_slice() == name
        && rows.bits.len() == bits.len()
        && rows
            .bits
            .as_slice()
            .iter()
            .zip(bits)
            .all(|(row, bit)| row.as_slice() == [*bit].as_slice())
}

#[test]
fn rows_are_read(rt: HostRuntime) {
    match rows_of(rt.alloc(), b"d\n1\n0\n1\n", b"d", 1) {
        Ok(rows) => assert!(rt; are_bits(&rows, b"d", &[true, false, true])),
        Err(_) => assert!(rt; false, "no rows"),
    }
}

/// Texts, their columns, and what they are printed as: nothing where they are no rows.
static TEXTS: [(&[u8], &[u8], &[u8]); 7] = [
    (b"d\n1\n0\n1", b"d", b"d\n1\n0\n1\n"),
    (b"d", b"d", b"d\n"),
    (b"-\n-\n-\n", b"", b"-\n-\n-\n"),
    (b"-\n", b"", b"-\n"),
    (
        b"# rows \x01\n\n  a \\\n\tb\r\n1 \\# so\n 0\n\n01 # last",
        b"ab",
        b"a b\n10\n01\n",
    ),
    (b"-\n0\n1\n", b"-", b"-\n0\n1\n"),
    (b"a b c\n0 01\n11\\", b"abc", b""),
];

#[test]
fn what_was_read_is_printed(rt: HostRuntime) {
    for (text, letters, want) in &TEXTS {
        assert!(rt; is_printed(rt.alloc(), text, letters, want), "{text:?}");
    }
}

/// Texts, their columns, and their first fault.
static FAULTS: [(&[u8], &[u8], Told); 17] = [
    (b"d\n1\n0 1\n1", b"d", ("Width", 3)),
    (b"d\n10\n", b"d", ("Width", 2)),
    (b"e\n1\n", b"d", ("Header", 0)),
    (b"d d\n1\n", b"d", ("Header", 0)),
    (b"d\nx\n", b"d", ("Char", 2)),
    (b"d\n-\n", b"d", ("Char", 2)),
    (b"", b"d", ("Header", 0)),
    (b"# d\n \t\n", b"d", ("Header", 0)),
    (b"-\n1\n", b"d", ("Header", 0)),
    (b"e\x01\n1\n", b"d", ("Char", 1)),
    (b"\n\x7f\nd\n1\n", b"d", ("Char", 2)),
    (b"d\n0\n1\\\n\x80\n", b"d", ("Char", 3)),
    (b"d\n1\\ 1\n", b"d", ("Char", 2)),
    (b"d\n1\n\\\n\\\n0 0\n", b"d", ("Width", 3)),
    (b"-\n--\n", b"", ("Width", 2)),
    (b"-\n0\n", b"", ("Char", 2)),
    (b"d\n1\n", b"", ("Header", 0)),
];

#[test]
fn faults_are_told(rt: HostRuntime) {
    for (text, letters, want) in &FAULTS {
        assert_eq!(rt; told_of(rt.alloc(), text, letters, 1), *want, "{text:?}");
    }
}

/// A text that has a header `-` and rows `-`.
pub(crate) fn rows_without_columns(alloc: Global, rows: u32) -> Result<Vec<u8>, AllocError> {
    let mut text = Vec::from_slice(alloc, b"-\n")?;
    for _ in 0..rows {
        text.extend_from_slice(b"-\n")?;
    }
    Ok(text)
}

/// What is told of such a text, where each row gives so many output bits.
fn told_of_rows(alloc: Global, rows: u32, outs: u32) -> Told {
    match rows_without_columns(alloc, rows) {
        Ok(text) => told_of(alloc, text.as_slice(), b"", outs),
        Err(_) => ("Memory", 0),
    }
}

/// What is told of a comment of so many bytes.
fn told_of_comment(alloc: Global, bytes: usize) -> Told {
    match vec![in alloc; b'#'; bytes] {
        Ok(text) => told_of(alloc, text.as_slice(), b"d", 1),
        Err(_) => ("Memory", 0),
    }
}

/// Numbers of rows and of outputs, and what is told.
static MANY_ROWS: [(u32, u32, Told); 4] = [
    (1_000_000, 67, NO_FAULT),
    (1_000_001, 1, ("Limit Rows", 1_000_001)),
    (986_895, 68, NO_FAULT),
    (986_896, 68, ("Limit OutBits", 67_108_928)),
];

/// Numbers of bytes, and what is told.
static MANY_BYTES: [(usize, Told); 2] = [
    (67_108_864, ("Header", 0)),
    (67_108_865, ("Limit FileBytes", 67_108_865)),
];

#[test]
fn limits_are_told(rt: HostRuntime) {
    for (rows, outs, want) in &MANY_ROWS {
        assert_eq!(rt; told_of_rows(rt.alloc(), *rows, *outs), *want, "{rows}");
    }
    for (bytes, want) in &MANY_BYTES {
        assert_eq!(rt; told_of_comment(rt.alloc(), *bytes), *want, "{bytes}");
    }
}

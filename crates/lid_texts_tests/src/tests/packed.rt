//! Packed rows: what is read and written is as the forms of texts have it, worked out by hand.

use crate::tests::rows::{NO_FAULT, Told, columns, told};
use lid_base::Name;
use lid_texts::VecFault;
use lid_texts_feed::read_packed;
use lid_texts_packed::{PackedRows, RowsPrinter};
use std::alloc::{AllocError, Global};

/// A text, its one-letter columns, what is told of it, and how its rows are written. A row of 70 columns takes two
/// words.
static TEXTS: [(&[u8], &[u8], Told, &[u8]); 9] = [
    (
        b"d e f\n010\n1 1 1\n",
        b"def",
        NO_FAULT,
        b"d e f\n010\n111\n",
    ),
    (
        b"# head\nd e\\\n f\n0 1\\\n1",
        b"def",
        NO_FAULT,
        b"d e f\n011\n",
    ),
    (
        b"a b c d e f g h i j k l m\n1000000000001\n0111111111110\n1010101010101\n0101010101010\n1100110011001\n0000000000001\n",
        b"abcdefghijklm",
        NO_FAULT,
        b"a b c d e f g h i j k l m\n1000000000001\n0111111111110\n1010101010101\n0101010101010\n1100110011001\n0000000000001\n",
    ),
    (
        b"a b c d e f g h i j k l m n o p q r s t u v w x y z A B C D E F G H I \
J K L M N O P Q R S T U V W X Y Z 0 1 2 3 4 5 6 7 8 9 _ . : ; , + * !\n\
1000000000000000000000000000000000000000000000000000000000000011100001\n\
1011111111111111111111111111111111111111111111111111111111111110011101\n",
        b"abcdefghijklmnopqrstuvwxyzABCDEFGHIJKLMNOPQRSTUVWXYZ0123456789_.:;,+*!",
        NO_FAULT,
        b"a b c d e f g h i j k l m n o p q r s t u v w x y z A B C D E F G H I \
J K L M N O P Q R S T U V W X Y Z 0 1 2 3 4 5 6 7 8 9 _ . : ; , + * !\n\
1000000000000000000000000000000000000000000000000000000000000011100001\n\
1011111111111111111111111111111111111111111111111111111111111110011101\n",
    ),
    (b"-\n-\n-\n", b"", NO_FAULT, b"-\n-\n-\n"),
    (b"d\n", b"d", NO_FAULT, b"d\n"),
    (b"", b"d", ("Header", 0), b""),
    (b"d\n1\n0 1\n1\n", b"d", ("Width", 3), b""),
    (b"d e\n10\n1x\n", b"de", ("Char", 3), b""),
];

/// Writes rows.
fn write(alloc: Global, names: &[Name], packed: &PackedRows) -> Result<Vec<u8>, AllocError> {
    let mut row = Vec::from_elem(alloc, false, packed.width())?;
    let mut printer = RowsPrinter::new(alloc, names, packed.width())?;
    for t in 0..packed.len() {
        packed.read(t, row.as_mut_slice());
        printer.push(row.as_slice())?;
    }
    Ok(printer.into_text())
}

/// Whether rows are written so.
fn is_written(alloc: Global, names: &[Name], packed: &PackedRows, want: &[u8]) -> bool {
    match write(alloc, names, packed) {
        Ok(text) => text.as_slice() == want,
        Err(_) => false,
    }
}

/// Whether a text is read and written so.
fn is_packed(alloc: Global, text: &[u8], letters: &[u8], want: Told, written: &[u8]) -> bool {
    let Ok(names) = columns(alloc, letters) else {
        return false;
    };
    match read_packed(alloc, text, names.as_slice(), 68) {
        Ok(packed) => want == NO_FAULT && is_written(alloc, names.as_slice(), &packed, written),
        Err(fault) => told(fault) == want,
    }
}

#[test]
fn texts_are_packed_and_written(rt: HostRuntime) {
    for (text, letters, want, written) in &TEXTS {
        assert!(rt;
            is_packed(rt.alloc(), text, letters, *want, written),
            "{}",
            text.len()
        );
    }
}

/// A text of so many rows of one bit, each third of which is 1.
fn long_text(alloc: Global, rows: u32) -> Result<Vec<u8>, AllocError> {
    let mut text = Vec::from_slice(alloc, b"d\n")?;
    for row in 0..rows {
        text.extend_from_slice(if row % 3 == 0 { b"1\n" } else { b"0\n" })?;
    }
    Ok(text)
}

/// The rows of such a text.
fn long_rows(alloc: Global, rows: u32) -> Result<PackedRows, VecFault> {
    let Ok(text) = long_text(alloc, rows) else {
        return Err(VecFault::Memory);
    };
    let Ok(names) = columns(alloc, b"d") else {
        return Err(VecFault::Memory);
    };
    read_packed(alloc, text.as_slice(), names.as_slice(), 1)
}

#[test]
fn texts_of_several_pieces_are_packed(rt: HostRuntime) {
    match long_rows(rt.alloc(), 100_000) {
        Ok(packed) => {
            assert_eq!(rt; packed.len(), 100_000);
            for row in 0..packed.len() {
                assert_eq!(rt; packed.bit_of(row, 0), row % 3 == 0, "{row}");
            }
        }
        Err(fault) => assert_eq!(rt; told(fault), NO_FAULT),
    }
}

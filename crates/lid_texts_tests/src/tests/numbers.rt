//! Number words, and lines of numbers.

use lid_base::{number, number_below};
use lid_base_lines::append_number_line;
use std::alloc::Global;

/// Words with their numbers.
static NUMBERS: [(&[u8], u64); 5] = [
    (b"0", 0),
    (b"7", 7),
    (b"10", 10),
    (b"1000000000000000000", 1_000_000_000_000_000_000),
    (b"18446744073709551615", 18_446_744_073_709_551_615),
];

/// Words that are no number words.
static OTHERS: [&[u8]; 10] = [
    b"",
    b"00",
    b"07",
    b"+1",
    b"-1",
    b"1x",
    b"x1",
    b"0x10",
    b"18446744073709551616",
    b"100000000000000000000",
];

/// Limits, words and whether they stand for a number below.
static BELOW: [(u64, &[u8], bool); 5] = [
    (0, b"0", false),
    (1, b"0", true),
    (10, b"9", true),
    (10, b"10", false),
    (10, b"09", false),
];

#[test]
fn number_words_are_read(rt: HostRuntime) {
    for case in &NUMBERS {
        assert!(rt; number(case.0) == Some(case.1));
    }
    for word in &OTHERS {
        assert!(rt; number(word).is_none());
    }
    for case in &BELOW {
        assert!(rt; number_below(case.0, case.1).is_some() == case.2);
    }
}

/// Whether the line of a keyword and numbers is this.
fn is_line(alloc: Global, keyword: &[u8], numbers: &[u64], want: &[u8]) -> bool {
    let mut text = Vec::new(alloc);
    append_number_line(keyword, numbers, &mut text).is_ok() && text.as_slice() == want
}

#[test]
fn numbers_are_written(rt: HostRuntime) {
    assert!(rt; is_line(rt.alloc(), b"ratio", &[2, 3], b"ratio 2 3\n"));
    assert!(rt; is_line(rt.alloc(), b"end", &[], b"end\n"));
    assert!(rt;
        is_line(
            rt.alloc(),
            b"n",
            &[0, 18_446_744_073_709_551_615],
            b"n 0 18446744073709551615\n"
        )
    );
}

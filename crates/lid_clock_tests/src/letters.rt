//! Letters that stand for what runs show.

use lid_base::Shown;

/// The letter of a bit.
pub(crate) fn bit_letter(bit: bool) -> u8 {
    if bit { b'1' } else { b'0' }
}

/// The letter of what a station shows: its bit, or a dot where it holds no token.
pub(crate) fn shown_letter(shown: Shown) -> u8 {
    if shown.valid {
        bit_letter(shown.token == 1)
    } else {
        b'.'
    }
}

/// The letter of an output row of one column: its bit, or a dot where there is none.
pub(crate) fn row_letter(row: Option<&[bool]>) -> u8 {
    match row {
        Some(bits) => bit_letter(bits.len() == 1 && bits[0]),
        None => b'.',
    }
}

/// The letter of a number below 10.
pub(crate) fn digit(number: u64) -> u8 {
    if number < 10 {
        b'0' + number as u8
    } else {
        b'?'
    }
}

/// The letter at a place of a text.
pub(crate) fn letter(text: &[u8], start: usize, i: u32) -> u8 {
    match text.get(start.wrapping_add(i as usize)) {
        Some(byte) => *byte,
        None => b' ',
    }
}

//! Where the hashes of a set begin.

ghost use Rattle.std.specs.Prelude.{◌≤◌, ◌+◌, length};

use std::hash::{BuildHasher, DefaultHasher, FoldHasher, Hasher};

/// The number of names below which all sets hash alike: a walk over so many costs little.
const FEW_NAMES: usize = 256;

/// Hashers that begin with a number of their set. Of many names it is a sum of all of them, so that names
/// which meet in one hash are hashed by another as soon as they stand together.
#[derive(Clone, Copy)]
pub struct Hashers {
    start: FoldHasher,
}

impl BuildHasher for Hashers {
    type Hasher = FoldHasher;

    ghost build_hasher = { λ s. s.start };

    fn build_hasher(&self) -> FoldHasher {
        self.start
    }
}

impl Hashers {
    /// The hashers of a set of names that are not known yet.
    pub fn plain() -> Hashers {
        Hashers {
            start: FoldHasher::default(),
        }
    }

    /// The hashers of a set of some names.
    pub fn of(names: &[&[u8]]) -> Hashers {
        let mut start = FoldHasher::default();
        if names.len() >= FEW_NAMES {
            start.write_u64(sum_of(names));
        }
        Hashers { start }
    }
}

/// A sum of all bytes of some names, by whole words.
fn sum_of(names: &[&[u8]]) -> u64 {
    let mut sum = DefaultHasher::new();
    for name in names {
        add_name(&mut sum, name);
    }
    sum.finish()
}

/// Adds the bytes of a name to a sum: words of eight bytes, and one of those that are left.
fn add_name(sum: &mut DefaultHasher, name: &[u8]) {
    let words = name.len() / 8;
    for i in 0..words {
        sum.write_u64(half_at(name, 8 * i) | half_at(name, 8 * i + 4) << 32);
    }
    sum.write_u64(short_word(&name[8 * words..]));
}

/// Fewer than eight bytes as one number, by reads that may overlap.
fn short_word(name: &[u8]) -> u64 {
    let len = name.len();
    if len >= 4 {
        half_at(name, 0) | half_at(name, len - 4) << 32
    } else if len > 0 {
        name[0] as u64 | (name[len / 2] as u64) << 8 | (name[len - 1] as u64) << 16
    } else {
        0
    }
}

/// Four bytes as one number.
fn half_at(name: &[u8], at: usize) -> u64
    requires { at + 4 ≤ length name.now }
{
    u32::from_le_bytes([name[at], name[at + 1], name[at + 2], name[at + 3]]) as u64
}

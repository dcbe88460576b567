//! A prefix with which no name begins.

ghost use Rattle.std.specs.Prelude.{◌≡◌, IfOk, length, [], ◌∷◌, ◌++◌, ◌+◌, ◌<◌};
ghost use Rattle.lid_emit_names.specs.Spelling.{IsFree};
ghost use Rattle.lid_emit.specs.Prefixes.{IsShortPrefix, IsLonger, begins_with, count_with};

use lid_base::Name;
use std::alloc::{AllocError, Global};

/// A prefix of 1 to 15 letters `a` and `b` with which none of these names begins.
///
/// # Errors
/// Where there is no memory.
pub fn free_prefix(alloc: Global, inputs: &[Name], outputs: &[Name]) -> Result<Vec<u8>, AllocError>
    requires { length inputs.now + length outputs.now < 32768 }
    ensures free { IfOk result (λ prefix. IsFree prefix.items (inputs.now ++ outputs.now)) }
    ensures short { IfOk result (λ prefix. IsShortPrefix prefix.items) }
{
    // each letter leaves at most half of the names that began with the prefix
    let mut prefix = longer(alloc, &[], inputs, outputs)?;
    for _ in 1..15u32 {
        if count(prefix.as_slice(), inputs, outputs) == 0 {
            return Ok(prefix);
        }
        prefix = longer(alloc, prefix.as_slice(), inputs, outputs)?;
    }
    Ok(prefix)
}

/// A prefix with that letter more of `a` and `b` with which fewer of the names begin.
fn longer(
    alloc: Global,
    prefix: &[u8],
    inputs: &[Name],
    outputs: &[Name],
) -> Result<Vec<u8>, AllocError>
    requires { length inputs.now + length outputs.now < 32768 }
    ensures { IfOk result (λ longer. IsLonger prefix.now longer.items (inputs.now ++ outputs.now)) }
{
    let a = with_letter(alloc, prefix, b'a')?;
    let b = with_letter(alloc, prefix, b'b')?;
    if count(a.as_slice(), inputs, outputs) <= count(b.as_slice(), inputs, outputs) {
        Ok(a)
    } else {
        Ok(b)
    }
}

/// A prefix with a letter more.
fn with_letter(alloc: Global, prefix: &[u8], letter: u8) -> Result<Vec<u8>, AllocError>
    ensures { IfOk result (λ longer. longer.items ≡ prefix.now ++ letter ∷ []) }
{
    let mut longer = Vec::from_slice(alloc, prefix)?;
    longer.push(letter)?;
    Ok(longer)
}

/// How many names of two lists begin with a prefix.
fn count(prefix: &[u8], inputs: &[Name], outputs: &[Name]) -> usize
    requires { length inputs.now + length outputs.now < 32768 }
    ensures { result ≡ count_with prefix.now (inputs.now ++ outputs.now) }
{
    count_in(prefix, inputs) + count_in(prefix, outputs)
}

/// How many names begin with a prefix.
fn count_in(prefix: &[u8], names: &[Name]) -> usize
    ensures { result ≡ count_with prefix.now names.now }
{
    let mut count = 0;
    for name in names {
        if begins(prefix, name.as_slice()) {
            count += 1;
        }
    }
    count
}

/// Whether a name begins with a prefix.
fn begins(prefix: &[u8], name: &[u8]) -> bool
    ensures { result ≡ begins_with prefix.now name.now }
{
    name.starts_with(prefix)
}

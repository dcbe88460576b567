//! Words and lines, appended to a text. On a refusal what was there before is still there, so that
//! a writer can cut the text back.

ghost use Rattle.std.specs.Prelude.{◌≡◌, ◌++◌, ◌∷◌, map, take, OnOk, OnErr};
ghost use Rattle.std.specs.Fmt.{decimal};
ghost use Rattle.std.specs.List.{join_with_byte};
ghost use Rattle.lid_base.specs.Lists.{Keeps};
ghost use Rattle.lid_base_lines.specs.Texts.{line_text, spaced};

use lid_base::{Name, append_number};
use std::alloc::AllocError;

/// Appends a blank and a word.
pub fn append_word(word: &[u8], into: &mut Vec<u8>) -> Result<(), AllocError>
    ensures ok { OnOk result (into.new.items ≡ into.old.items ++ 32 ∷ word.now) }
    ensures kept { Keeps into.old.items into.new.items }
{
    into.push(b' ')?;
    into.extend_from_slice(word)
}

/// Appends the words, each after a blank.
pub fn append_words(words: &[Name], into: &mut Vec<u8>) -> Result<(), AllocError>
    ensures ok { OnOk result (into.new.items ≡ into.old.items ++ spaced words.now) }
    ensures kept { Keeps into.old.items into.new.items }
{
    for word in words {
        append_word(word.as_slice(), into)?;
    }
    Ok(())
}

/// Appends the words with a blank between each two.
fn append_joined(words: &[Name], into: &mut Vec<u8>) -> Result<(), AllocError>
    ensures ok { OnOk result (into.new.items ≡ into.old.items ++ join_with_byte 32 words.now) }
    ensures kept { Keeps into.old.items into.new.items }
{
    let mut rest = words;
    while let [word, after @ ..] = rest {
        into.extend_from_slice(word.as_slice())?;
        if !after.is_empty() {
            into.push(b' ')?;
        }
        rest = after;
    }
    Ok(())
}

/// Appends the line of some words.
#[tactic(auto, unfolding(crate::specs::Texts::line_text))]
pub fn append_line(words: &[Name], into: &mut Vec<u8>) -> Result<(), AllocError>
    ensures ok { OnOk result (into.new.items ≡ into.old.items ++ line_text words.now) }
    ensures kept { Keeps into.old.items into.new.items }
{
    append_joined(words, into)?;
    into.push(b'\n')?;
    Ok(())
}

/// Appends a line of a keyword and words.
pub fn append_keyword_line(
    keyword: &[u8],
    words: &[Name],
    into: &mut Vec<u8>,
) -> Result<(), AllocError>
    ensures ok { OnOk result (into.new.items ≡ into.old.items ++ line_text (keyword.now ∷ words.now)) }
    ensures kept { Keeps into.old.items into.new.items }
{
    into.extend_from_slice(keyword)?;
    append_words(words, into)?;
    into.push(b'\n')?;
    Ok(())
}

/// Appends a blank and a number.
pub fn append_number_word(number: u64, into: &mut Vec<u8>) -> Result<(), AllocError>
    ensures ok { OnOk result (into.new.items ≡ into.old.items ++ 32 ∷ decimal number) }
    ensures kept { Keeps into.old.items into.new.items }
{
    into.push(b' ')?;
    append_number(number, into)
}

/// Appends numbers, each after a blank.
pub fn append_numbers(numbers: &[u64], into: &mut Vec<u8>) -> Result<(), AllocError>
    ensures ok { OnOk result (into.new.items ≡ into.old.items ++ spaced (map decimal numbers.now)) }
    ensures kept { Keeps into.old.items into.new.items }
{
    for number in numbers {
        append_number_word(*number, into)?;
    }
    Ok(())
}

/// Appends small numbers, each after a blank.
pub fn append_small_numbers(numbers: &[u32], into: &mut Vec<u8>) -> Result<(), AllocError>
    ensures ok { OnOk result (into.new.items ≡ into.old.items ++ spaced (map decimal numbers.now)) }
    ensures kept { Keeps into.old.items into.new.items }
{
    for number in numbers {
        append_number_word(u64::from(*number), into)?;
    }
    Ok(())
}

/// Appends a line of a keyword and numbers.
pub fn append_number_line(
    keyword: &[u8],
    numbers: &[u64],
    into: &mut Vec<u8>,
) -> Result<(), AllocError>
    ensures ok { OnOk result (into.new.items ≡ into.old.items ++ line_text (keyword.now ∷ map decimal numbers.now)) }
    ensures kept { Keeps into.old.items into.new.items }
{
    into.extend_from_slice(keyword)?;
    append_numbers(numbers, into)?;
    into.push(b'\n')?;
    Ok(())
}

/// Hands on how an appending ended. Where it was refused, the text is cut back to the length that it
/// had before.
pub fn cut_back(
    len: usize,
    appended: Result<(), AllocError>,
    into: &mut Vec<u8>,
) -> Result<(), AllocError>
    ensures same { result ≡ appended }
    ensures ok { OnOk result (into.new.items ≡ into.old.items) }
    ensures err { OnErr result (into.new.items ≡ take len into.old.items) }
{
    if appended.is_err() {
        into.truncate(len);
    }
    appended
}

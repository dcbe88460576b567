//! The logical lines of a text.

ghost use Rattle.std.specs.Prelude.{◌≡◌, ℕ, ◌<◌, ◌≤◌, ◌⊎◌, List, [], ◌∷◌, ◌++◌, length, IfOk, OnOk, IfErr};
ghost use Rattle.lid_base.specs.Lines.{logical_lines, line_fault, text_fault};
ghost use Rattle.lid_base.specs.Joins.{closed_lines, open_lines, all_lines};

use crate::cut::{cut_line, goes_on, has_bad_byte, has_long_word, push_words};
use crate::items::Items;
use crate::names::Name;
use std::alloc::{AllocError, Global};
use std::mem;
use thiserror::Error;

/// A logical line: the number of its first physical line, counted from 1, and its words.
#[derive(Drop)]
pub struct Line {
    pub number: u32,
    pub words: Items<Name>,
}

/// Why a text has no logical lines.
#[derive(Clone, Copy, Debug, PartialEq, Eq, Error)]
pub enum TextFault {
    /// The physical line has a byte that is not allowed outside comments, or a word that ends in `\`.
    #[error("line {line} has a byte that is not allowed")]
    BadByte { line: u32 },
    /// The physical line has a word that is too long.
    #[error("line {line} has a word that is too long")]
    NameTooLong { line: u32 },
    /// There was no memory.
    #[error("out of memory")]
    Memory,
}

/// The logical lines that are done, and the one that is open: its number and its words so far.
#[derive(Drop)]
struct Joined {
    done: Vec<Line>,
    number: u32,
    words: Vec<Name>,
}

impl Joined {
    /// No line is done, and the first is open.
    fn new(alloc: Global) -> Joined
        ensures { (ps : List (ℕ × List ℕ)) → all_lines result ps ≡ open_lines 1 [] ps }
    {
        Joined {
            done: Vec::new(alloc),
            number: 1,
            words: Vec::new(alloc),
        }
    }

    /// Ends the open line, and opens the next one.
    fn close(&mut self, alloc: Global, next: u32) -> Result<(), AllocError>
        ensures done { OnOk result (self.new.done.items ≡ self.old.done.items ++ closed_lines self.old.number self.old.words.items) }
        ensures number { OnOk result (self.new.number ≡ next) }
        ensures words { OnOk result (self.new.words.items ≡ []) }
    {
        let words = mem::replace(&mut self.words, Vec::new(alloc));
        if !words.is_empty() {
            let words = Items::from_vec(words);
            self.done.push(Line {
                number: self.number,
                words,
            })?;
        }
        self.number = next;
        Ok(())
    }

    /// Takes the next physical line.
    fn add(&mut self, alloc: Global, number: u32, line: &[u8]) -> Result<(), AllocError>
        requires { number < 4294967295 }
        ensures { OnOk result ((ps : List (ℕ × List ℕ)) → all_lines self.new ps ≡ all_lines self.old ((number, line.now) ∷ ps)) }
    {
        push_words(alloc, line, &mut self.words)?;
        if !goes_on(line) {
            self.close(alloc, number + 1)?;
        }
        Ok(())
    }

    /// Ends the last line.
    fn finish(mut self, alloc: Global) -> Result<Items<Line>, AllocError>
        ensures { IfOk result (λ v. v ≡ all_lines self []) }
    {
        self.close(alloc, 0)?;
        let Joined { done, .. } = self;
        Ok(Items::from_vec(done))
    }
}

/// What is at fault in a physical line.
fn line_fault(number: u32, line: &[u8], longest: u32) -> Option<TextFault>
    ensures { result ≡ line_fault longest (number, line.now) }
{
    if has_bad_byte(line) {
        Some(TextFault::BadByte { line: number })
    } else if has_long_word(line, longest) {
        Some(TextFault::NameTooLong { line: number })
    } else {
        None
    }
}

/// The logical lines of a text whose words have at most `longest` bytes.
///
/// # Errors
/// `BadByte` and `NameTooLong` tell the first physical line that has such a fault, `BadByte` where
/// a line has both. `Memory` may come at any text.
pub fn lines(alloc: Global, bytes: &[u8], longest: u32) -> Result<Items<Line>, TextFault>
    requires { length bytes.now ≤ 67108864 }
    ensures ok { IfOk result (λ v. (text_fault longest bytes.now ≡ None) × (v ≡ logical_lines bytes.now)) }
    ensures err { IfErr result (λ e. (e ≡ TextFault.Memory) ⊎ (text_fault longest bytes.now ≡ Some e)) }
{
    let mut joined = Joined::new(alloc);
    let mut number = 1;
    let mut left = Some(bytes);
    while let Some(text) = left {
        let (line, after) = cut_line(text);
        if let Some(fault) = line_fault(number, line, longest) {
            return Err(fault);
        }
        let Ok(()) = joined.add(alloc, number, line) else {
            return Err(TextFault::Memory);
        };
        number += 1;
        left = after;
    }
    match joined.finish(alloc) {
        Ok(lines) => Ok(lines),
        Err(_) => Err(TextFault::Memory),
    }
}

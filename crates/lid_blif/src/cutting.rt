//! A text cut into logical lines whose words lie in it.

ghost use Rattle.std.specs.Prelude.{◌≡◌, ℕ, ◌+◌, ◌-◌, ◌<◌, ◌≤◌, ◌⊎◌, List, [], ◌∷◌, ◌++◌, length, IfOk, OnOk, IfErr, Some, None};
ghost use Rattle.lid_base.specs.Lines.{logical_lines, line_fault, text_fault};
ghost use Rattle.lid_base.specs.Joins.{closed_lines, open_lines};
ghost use Rattle.lid_blif.specs.Places.{bytes_between};
ghost use Rattle.lid_blif.specs.Joins.{lines_cut, words_counted, done_lines, open_words, all_lines, OpensBehind};

use crate::line::{TextLine, TextWords, Word};
use crate::physical::take_words;
use lid_base::{Items, TextFault, cut_line};
use std::alloc::{AllocError, Global};

/// How many words a logical line has, and the number of its first physical line.
#[derive(Clone, Copy)]
pub struct LineSize {
    pub number: u32,
    pub count: u32,
}

/// The words of all logical lines, and the sizes that cut them into lines.
#[derive(Drop)]
pub struct WordList<'t> {
    pub words: TextWords<'t>,
    pub sizes: Vec<LineSize>,
}

/// The words of a text so far, and the sizes of the lines that are done. A line is open: its
/// number, and how many words stand before its own.
#[derive(Drop)]
struct Joined<'t> {
    text: &'t [u8],
    words: Vec<Word>,
    sizes: Vec<LineSize>,
    number: u32,
    start: usize,
}

impl<'t> Joined<'t> {
    /// No line is done, and the first is open.
    fn new(alloc: Global, text: &'t [u8]) -> Joined<'t>
        ensures lines { (ps : List (ℕ × List ℕ)) → all_lines result ps ≡ open_lines 1 [] ps }
        ensures joined { OpensBehind result }
        ensures text { result.text.now ≡ text.now }
        ensures empty { length result.words.items ≡ 0 }
    {
        Joined {
            text,
            words: Vec::new(alloc),
            sizes: Vec::new(alloc),
            number: 1,
            start: 0,
        }
    }

    /// Ends the open line, and opens the next one.
    fn close(&mut self, next: u32) -> Result<(), AllocError>
        requires joined { OpensBehind self.now }
        requires few { length self.now.words.items < 4294967296 }
        ensures done { OnOk result (done_lines self.new ≡ done_lines self.old ++ closed_lines self.old.number (open_words self.old)) }
        ensures number { OnOk result (self.new.number ≡ next) }
        ensures words { OnOk result (open_words self.new ≡ []) }
        ensures joined { OnOk result (OpensBehind self.new) }
        ensures text { self.new.text.now ≡ self.old.text.now }
        ensures same { self.new.words.items ≡ self.old.words.items }
    {
        let number = self.number;
        self.number = next;
        let count = self.words.len() - self.start;
        if count == 0 {
            return Ok(());
        }
        self.sizes.push(LineSize {
            number,
            count: count as u32,
        })?;
        self.start += count;
        Ok(())
    }

    /// Takes the next physical line, which stands in the text from one place up to another.
    fn add(&mut self, number: u32, from: usize, to: usize, longest: u32) -> Result<(), TextFault>
        requires number { number < 4294967295 }
        requires joined { OpensBehind self.now }
        requires within { (from ≤ to) × (to ≤ length self.now.text.now) }
        requires short { length self.now.text.now ≤ 67108864 }
        requires few { length self.now.words.items ≤ from }
        ensures lines { OnOk result ((ps : List (ℕ × List ℕ)) → all_lines self.new ps ≡ all_lines self.old ((number, bytes_between self.old.text.now from to) ∷ ps)) }
        ensures joined { OnOk result (OpensBehind self.new) }
        ensures text { self.new.text.now ≡ self.old.text.now }
        ensures few { OnOk result (length self.new.words.items ≤ to + 1) }
        ensures ok { OnOk result (line_fault longest (number, bytes_between self.old.text.now from to) ≡ None) }
        ensures err { IfErr result (λ e. (e ≡ TextFault.Memory) ⊎ (line_fault longest (number, bytes_between self.old.text.now from to) ≡ Some e)) }
    {
        match take_words(number, self.text, from, to, longest, &mut self.words) {
            Err(fault) => Err(fault),
            Ok(true) => Ok(()),
            Ok(false) => match self.close(number + 1) {
                Ok(()) => Ok(()),
                Err(_) => Err(TextFault::Memory),
            },
        }
    }

    /// Ends the last line.
    fn finish(mut self) -> Result<WordList<'t>, AllocError>
        requires joined { OpensBehind self }
        requires few { length self.words.items < 4294967296 }
        ensures lines { IfOk result (λ list. lines_cut list.sizes.items list.words ≡ all_lines self.entry []) }
        ensures counted { IfOk result (λ list. words_counted list.sizes.items ≤ length list.words) }
        ensures few { IfOk result (λ list. length list.words < 4294967296) }
    {
        self.close(0)?;
        let Joined {
            text,
            mut words,
            sizes,
            ..
        } = self;
        words.shrink_to_fit();
        Ok(WordList {
            words: TextWords::new(text, words),
            sizes,
        })
    }
}

/// The words of the logical lines of a text, which have at most `longest` bytes. They lie in the
/// text.
///
/// # Errors
/// `BadByte` and `NameTooLong` tell the first physical line that has such a fault, `BadByte` where
/// a line has both. `Memory` may come at any text.
pub fn word_list(alloc: Global, bytes: &[u8], longest: u32) -> Result<WordList<'_>, TextFault>
    requires { length bytes.now ≤ 67108864 }
    ensures ok { IfOk result (λ list. (text_fault longest bytes.now ≡ None) × (lines_cut list.sizes.items list.words ≡ logical_lines bytes.now)) }
    ensures counted { IfOk result (λ list. words_counted list.sizes.items ≤ length list.words) }
    ensures few { IfOk result (λ list. length list.words < 4294967296) }
    ensures err { IfErr result (λ e. (e ≡ TextFault.Memory) ⊎ (text_fault longest bytes.now ≡ Some e)) }
{
    let mut joined = Joined::new(alloc, bytes);
    let mut number = 1;
    let mut from = 0;
    let mut left = Some(bytes);
    while let Some(text) = left {
        let (line, after) = cut_line(text);
        let to = from + line.len();
        if let Err(fault) = joined.add(number, from, to, longest) {
            return Err(fault);
        }
        number += 1;
        from = to + 1;
        left = after;
    }
    match joined.finish() {
        Ok(list) => Ok(list),
        Err(_) => Err(TextFault::Memory),
    }
}

/// The lines that sizes cut from words.
pub fn lines_cut<'w, 't>(
    alloc: Global,
    words: &'w TextWords<'t>,
    sizes: &[LineSize],
) -> Result<Items<TextLine<'w, 't>>, AllocError>
    requires counted { words_counted sizes.now ≤ length words.now }
    requires few { length words.now < 4294967296 }
    ensures { IfOk result (λ lines. lines ≡ lines_cut sizes.now words.now) }
{
    let mut lines = Vec::with_capacity(alloc, sizes.len())?;
    let mut start = 0;
    for size in sizes {
        lines.push(TextLine::new(size.number, words, start, size.count))?;
        start += size.count;
    }
    Ok(Items::from_vec(lines))
}

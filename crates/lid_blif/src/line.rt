//! Logical lines whose words lie in the text.

ghost use Rattle.std.specs.Prelude.{◌≡◌, ◌++◌, length, take, drop, IfOk, OnOk};
ghost use Rattle.lid_base.specs.declared.line.Line.{Line};
ghost use Rattle.lid_base.specs.Words.{word_at, last_word};
ghost use Rattle.lid_blif.specs.Words.{keyword_of};
ghost use Rattle.lid_blif.specs.Places.{bytes_of_word, bytes_of_words};

use crate::keyword::Keyword;
use crate::words::named;
use lid_base::{Items, Name, copy_name};
use std::alloc::{AllocError, Global};
use std::marker::Model;

/// Where a word lies in a text.
#[derive(Clone, Copy)]
pub struct Word {
    pub start: u32,
    pub len: u32,
}

/// The first `count` items.
fn front<T>(items: &[T], count: usize) -> &[T]
    ensures { result.now ≡ take count items.now }
{
    if count < items.len() {
        &items[..count]
    } else {
        items
    }
}

/// The items without the first `count`.
fn back<T>(items: &[T], count: usize) -> &[T]
    ensures { result.now ≡ drop count items.now }
{
    if count < items.len() {
        &items[count..]
    } else {
        &[]
    }
}

/// The bytes of a word of this text.
fn bytes_of_word(text: &[u8], word: Word) -> &[u8]
    ensures { result.now ≡ bytes_of_word text.now word }
{
    front(back(text, word.start as usize), word.len as usize)
}

/// Some words that lie in a text. A contract sees the bytes of each.
#[derive(Drop)]
pub struct Words<'w> {
    text: &'w [u8],
    words: &'w [Word],
}

impl<'w> Model for Words<'w> {
    ghost use Rattle.std.specs.Prelude.{ℕ, List};
    ghost use Rattle.lid_blif.specs.Places.{bytes_of_words};

    ghost Value = { List (List ℕ) };

    ghost view = { λ s. bytes_of_words s.text.now s.words.now };
}

impl<'w> Words<'w> {
    /// How many they are.
    pub fn len(&self) -> usize
        ensures { result ≡ length self.now }
    {
        self.words.len()
    }
}

/// All the words of a text that was cut. A contract sees the bytes of each.
#[derive(Drop)]
pub struct TextWords<'t> {
    text: &'t [u8],
    words: Vec<Word>,
}

impl<'t> Model for TextWords<'t> {
    ghost use Rattle.std.specs.Prelude.{ℕ, List};
    ghost use Rattle.lid_blif.specs.Places.{bytes_of_words};

    ghost Value = { List (List ℕ) };

    ghost view = { λ s. bytes_of_words s.text.now s.words.items };
}

impl<'t> TextWords<'t> {
    /// The words that lie at these places.
    pub fn new(text: &'t [u8], words: Vec<Word>) -> TextWords<'t>
        ensures { result ≡ bytes_of_words text.now words.items }
    {
        TextWords { text, words }
    }

    /// `count` words behind the first `start`.
    fn part(&self, start: u32, count: u32) -> Words<'_>
        ensures { result ≡ take count (drop start self.now) }
    {
        Words {
            text: self.text,
            words: front(back(self.words.as_slice(), start as usize), count as usize),
        }
    }
}

/// A logical line: some of the words of a text, one behind the other. A contract sees the line.
#[derive(Drop)]
pub struct TextLine<'w, 't> {
    all: &'w TextWords<'t>,
    /// How many words stand before its own.
    start: u32,
    /// How many words it has.
    count: u32,
    number: u32,
    /// What its first word says.
    keyword: Keyword,
}

impl<'w, 't> Model for TextLine<'w, 't> {
    ghost use Rattle.std.specs.Prelude.{◌≡◌, take, drop};
    ghost use Rattle.lid_base.specs.declared.line.Line.{Line};
    ghost use Rattle.lid_blif.specs.Words.{keyword_of};

    ghost Value = { Line };

    ghost view = { λ s. record { number = s.number; words = take s.count (drop s.start s.all.now) } };

    ghost invariant = { λ s. s.keyword ≡ keyword_of (take s.count (drop s.start s.all.now)) };
}

impl<'w, 't> TextLine<'w, 't> {
    /// A line of this number, which is that of its first physical line, with `count` words behind
    /// the first `start`.
    pub fn new(number: u32, all: &'w TextWords<'t>, start: u32, count: u32) -> TextLine<'w, 't>
        ensures { let line : Line = record { number = number; words = take count (drop start all.now) } in result ≡ line }
    {
        let words = all.part(start, count);
        TextLine {
            all,
            start,
            count,
            number,
            keyword: named(word_at(&words, 0)),
        }
    }

    /// The number of its first physical line, counted from 1.
    pub fn number(&self) -> u32
        ensures { result ≡ self.now.number }
    {
        self.number
    }

    /// What its first word says.
    pub fn keyword(&self) -> Keyword
        ensures { result ≡ keyword_of self.now.words }
    {
        self.keyword
    }

    /// Its words.
    pub fn words(&self) -> Words<'w>
        ensures { result ≡ self.now.words }
    {
        self.all.part(self.start, self.count)
    }
}

/// The word at a place, or no bytes past the end.
pub fn word_at<'w>(words: &Words<'w>, at: usize) -> &'w [u8]
    ensures { result.now ≡ word_at words.now at }
{
    if at < words.words.len() {
        bytes_of_word(words.text, words.words[at])
    } else {
        &[]
    }
}

/// The last word, or no bytes without words.
pub fn last_word<'w>(words: &Words<'w>) -> &'w [u8]
    ensures { result.now ≡ last_word words.now }
{
    word_at(words, words.len().saturating_sub(1))
}

/// The first `count` words.
pub fn words_before<'w>(words: &Words<'w>, count: usize) -> Words<'w>
    ensures { result ≡ take count words.now }
{
    Words {
        text: words.text,
        words: front(words.words, count),
    }
}

/// The words without the first `count`.
pub fn words_after<'w>(words: &Words<'w>, count: usize) -> Words<'w>
    ensures { result ≡ drop count words.now }
{
    Words {
        text: words.text,
        words: back(words.words, count),
    }
}

/// Appends copies of some words.
pub fn push_copies(alloc: Global, words: &Words<'_>, into: &mut Vec<Name>) -> Result<(), AllocError>
    ensures { OnOk result (into.new.items ≡ into.old.items ++ words.now) }
{
    for at in 0..words.len() {
        into.push(copy_name(alloc, word_at(words, at))?)?;
    }
    Ok(())
}

/// A copy of some words.
pub fn copy_words(alloc: Global, words: &Words<'_>) -> Result<Items<Name>, AllocError>
    ensures { IfOk result (λ copies. copies ≡ words.now) }
{
    let mut copies = Vec::with_capacity(alloc, words.len())?;
    push_copies(alloc, words, &mut copies)?;
    Ok(Items::from_vec(copies))
}

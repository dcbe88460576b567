//! What every part of lid stands on: lists and names, the logical lines of a text and their words,
//! number words, and the traits by which the program reaches files and outputs.
#![tactic(auto)]

mod cut;
mod items;
mod line;
mod meet;
mod memory;
mod names;
mod noting;
mod numerals;
mod outside;
mod runs;
mod system;
mod text;
mod which;
mod words;

pub use cut::{
    content_of, cut_line, ends_in_mark, find_separator, find_word, goes_on, has_bad_byte,
    has_stray_byte, push_words, trimmed,
};
pub use items::{Bytes, Items};
pub use line::{Line, TextFault, lines};
pub use meet::MeetGate;
pub use memory::{File, MemShelf, MemSink};
pub use names::{Name, copy_name, copy_names, push_copies};
pub use noting::Noting;
pub use numerals::{append_number, is_below, number, number_below, value_below};
pub use outside::{Fetch, Gate, OpenGate, Shelf, ShelfFailed, Sink, SinkFailed};
pub use runs::{Answer, Shown, Tally};
pub use system::{DirShelf, StdSink};
pub use text::Text;
pub use which::Which;
pub use words::{begins_with, is_same, word_at, words_after};

//! Texts made of lines of words: their lines within the limits of a file, how they are written, and that they are read
//! back.
#![tactic(auto)]

mod laws;
mod limited;
mod writer;

pub use laws::{lines_are_read_back, numbers_are_read_back, read_lines_are_spelled};
pub use limited::{LinesFault, limited_lines};
pub use writer::{
    append_keyword_line, append_line, append_number_line, append_number_word, append_numbers,
    append_small_numbers, append_word, append_words, cut_back,
};

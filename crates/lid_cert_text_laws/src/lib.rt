//! Laws of the text of a certificate: it is read as its grammar says, a header and a section of lines for each part, and
//! refused at the first line by which no text of the grammar goes on.
#![tactic(auto)]

mod laws;

pub use laws::{refusals_are_first, texts_are_read};

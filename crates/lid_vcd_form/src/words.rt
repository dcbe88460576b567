//! The words of a dump, one after another.

ghost use Rattle.std.specs.Prelude.{◌≡◌, ℕ, ◌+◌, ◌<◌, ◌≤◌, ◌∷◌, [], true, length, position, IfSome, MatchOption};
ghost use Rattle.lid_vcd_form.specs.Words.{separates, begins_word, words_on, word_length};

/// A word, the number of its line, and the bytes after it.
#[derive(Clone, Copy)]
pub struct PlacedWord<'a> {
    pub line: u32,
    pub word: &'a [u8],
    pub after: &'a [u8],
}

/// Whether a byte separates words: a newline, a blank, a tab or a carriage return.
fn separates(b: u8) -> bool
    ensures { result ≡ separates b }
{
    b == b'\n' || b == b' ' || b == b'\t' || b == b'\r'
}

/// Where the first byte stands that separates words.
fn find_separator(bytes: &[u8]) -> Option<usize>
    ensures { result ≡ position separates bytes.now }
{
    bytes.iter().position(|b| separates(*b))
}

/// How many bytes stand before the first that separates words.
fn find_end(bytes: &[u8]) -> usize
    ensures at { result ≡ word_length bytes.now }
    ensures within { result ≤ length bytes.now }
{
    match find_separator(bytes) {
        None => bytes.len(),
        Some(end) => end,
    }
}

/// The bytes from the first word on, and the number of its line, where the first byte stands on this
/// line.
fn skip_to_word(line: u32, bytes: &[u8]) -> (u32, &[u8])
    requires { line + length bytes.now < 4294967296 }
    ensures words { words_on result.0 [] result.1.now ≡ words_on line [] bytes.now }
    ensures begins { begins_word result.1.now ≡ true }
    ensures bound { result.0 + length result.1.now ≤ line + length bytes.now }
    ensures shorter { length result.1.now ≤ length bytes.now }
{
    let mut line = line;
    let mut rest = bytes;
    while let [b, after @ ..] = rest {
        if !separates(*b) {
            return (line, rest);
        }
        if *b == b'\n' {
            line += 1;
        }
        rest = after;
    }
    (line, rest)
}

/// A text that begins with a word, cut after it.
fn cut_word(bytes: &[u8]) -> (&[u8], &[u8])
    requires begins { begins_word bytes.now ≡ true }
    requires some { 0 < length bytes.now }
    ensures words { (line : ℕ) → words_on line [] bytes.now ≡ (line, result.0.now) ∷ words_on line [] result.1.now }
    ensures shorter { length result.1.now < length bytes.now }
{
    bytes.split_at(find_end(bytes))
}

/// The next word of a text whose first byte stands on this line. `None` is no word. It takes no memory.
pub fn next_word(line: u32, bytes: &[u8]) -> Option<PlacedWord<'_>>
    requires { line + length bytes.now < 4294967296 }
    ensures words { MatchOption result (words_on line [] bytes.now ≡ []) (λ p. words_on line [] bytes.now
        ≡ (p.line, p.word.now) ∷ words_on p.line [] p.after.now) }
    ensures bound { IfSome result (λ p. p.line + length p.after.now ≤ line + length bytes.now) }
    ensures shorter { IfSome result (λ p. length p.after.now < length bytes.now) }
{
    let (line, rest) = skip_to_word(line, bytes);
    if rest.is_empty() {
        return None;
    }
    let (word, after) = cut_word(rest);
    Some(PlacedWord { line, word, after })
}

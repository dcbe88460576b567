//! Channels of two pieces: 33 ports lead from one shell to another, which reads them in reversed order.

use crate::runs::is_run;
use std::alloc::Global;
use std::fmt::Write;
use std::test::Fail;

/// Two stages of 33 latches: texts, and behind each 33 words. A word is a text with its number and, where
/// there is a second text, that with the same number or, where they are reversed, with what is left of 32.
static STAGES: [(&str, &str, &str, bool); 9] = [
    (".model t\n.inputs", " x", "", false),
    ("\n.outputs", " y", "", false),
    ("\n.subckt stage", " a", "=x", false),
    ("", " b", "=m", false),
    ("\n.subckt stage", " a", "=m", true),
    ("", " b", "=y", false),
    ("\n.end\n.model stage\n.inputs", " a", "", false),
    ("\n.outputs", " b", "", false),
    ("", "\n.latch a", " b", false),
];

/// Appends 33 words.
fn push_words(text: &mut String, first: &str, second: &str, reversed: bool) -> Result<(), Fail> {
    for number in 0..33u32 {
        write!(text, "{first}{number}")?;
        if !second.is_empty() {
            let other = if reversed { 32 - number } else { number };
            write!(text, "{second}{other}")?;
        }
    }
    Ok(())
}

/// The netlist of two stages.
fn stages(alloc: Global) -> Result<String, Fail> {
    let mut text = String::new(alloc);
    for (before, first, second, reversed) in &STAGES {
        text.push_str(before)?;
        push_words(&mut text, first, second, *reversed)?;
    }
    text.push_str("\n.end\n")?;
    Ok(text)
}

/// A line of 33 names behind blanks, and some rows.
fn rows_of(alloc: Global, name: &str, rows: &str) -> Result<String, Fail> {
    let mut text = String::new(alloc);
    push_words(&mut text, name, "", false)?;
    text.push_str(rows)?;
    Ok(text)
}

/// Bits at the ends of both pieces.
const GIVEN: &str = "\n\
100000000000000000000000000000000\n\
000000000000000000000000000000010\n\
000000000000000000000000000000100\n\
110110110110110110110110110110110\n\
000000000000000000000000000000001\n\
111111111111111111111111111111111\n\
010000000000000000000000000000000\n";

/// The latches begin at 0, and two rows later each row comes back reversed.
const WANTED: &str = "\n\
000000000000000000000000000000000\n\
000000000000000000000000000000000\n\
000000000000000000000000000000001\n\
010000000000000000000000000000000\n\
001000000000000000000000000000000\n\
011011011011011011011011011011011\n\
100000000000000000000000000000000\n";

/// Whether the two stages give the rows that are wanted.
fn stages_run(alloc: Global) -> Result<bool, Fail> {
    let net = stages(alloc)?;
    let given = rows_of(alloc, " x", GIVEN)?;
    let wanted = rows_of(alloc, " y", WANTED)?;
    Ok(is_run(
        alloc,
        net.as_bytes(),
        given.as_bytes(),
        wanted.as_str().trim_start().as_bytes(),
    ))
}

#[test]
fn channels_of_two_pieces_carry_their_bits(rt: HostRuntime) -> Result<(), Fail> {
    let goes = stages_run(rt.alloc())?;
    assert!(rt; goes);
    Ok(())
}

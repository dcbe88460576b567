//! From lines to the parts of a certificate.

ghost use Rattle.std.specs.Prelude.{◌≡◌, map, drop, IfOk, OnOk, codes};
ghost use Rattle.lid_cert_text.specs.Columns.{AreMore, AreColumns};
ghost use Rattle.lid_base.specs.Numbers.{value_below};
ghost use Rattle.lid_cert_text.specs.Texts.{words_at, node_lines, part_of, parts_of};

use crate::words::{LARGE, RATIO, small, via_value};
use lid_base::{Items, Line, Name, begins_with, value_below, word_at, words_after};
use lid_cert::Part;
use std::alloc::{AllocError, Global};

/// The words of a line, or none past the end.
fn words_at(lines: &[Line], at: usize) -> &[Name]
    ensures { result.now ≡ words_at lines.now at }
{
    if at < lines.len() {
        lines[at].words.as_slice()
    } else {
        &[]
    }
}

/// The `node` lines that some lines begin with.
fn node_lines(lines: &[Line]) -> &[Line]
    ensures { result.now ≡ node_lines lines.now }
{
    for (at, line) in lines.iter().enumerate() {
        if !begins_with(b"node", line.words.as_slice()) {
            return &lines[..at];
        }
    }
    lines
}

/// What the `node` lines of a part say, with an entry for each line.
#[derive(Drop)]
struct Columns {
    nodes: Vec<u32>,
    lag: Vec<u64>,
    lead: Vec<u64>,
    depth: Vec<u32>,
    via: Vec<Option<u32>>,
}

/// Appends what a `node` line says.
fn append(columns: &mut Columns, line: &Line) -> Result<(), AllocError>
    ensures { OnOk result (AreMore columns.old columns.new line.now.words) }
{
    let words = line.words.as_slice();
    columns.nodes.push(small(word_at(words, 1)))?;
    columns.lag.push(value_below(LARGE, word_at(words, 2)))?;
    columns.lead.push(value_below(LARGE, word_at(words, 3)))?;
    columns.depth.push(small(word_at(words, 4)))?;
    columns.via.push(via_value(word_at(words, 5)))?;
    Ok(())
}

/// What `node` lines say.
fn columns_of(alloc: Global, lines: &[Line]) -> Result<Columns, AllocError>
    ensures { IfOk result (λ columns. AreColumns columns lines.now) }
{
    let mut columns = Columns {
        nodes: Vec::new(alloc),
        lag: Vec::new(alloc),
        lead: Vec::new(alloc),
        depth: Vec::new(alloc),
        via: Vec::new(alloc),
    };
    for line in lines {
        append(&mut columns, line)?;
    }
    Ok(columns)
}

/// The small numbers of some words.
fn small_numbers(alloc: Global, words: &[Name]) -> Result<Items<u32>, AllocError>
    ensures { IfOk result (λ numbers. numbers ≡ map (value_below 4294967296) words.now) }
{
    let mut numbers = Vec::with_capacity(alloc, words.len())?;
    for word in words {
        numbers.push(small(word.as_slice()))?;
    }
    Ok(Items::from_vec(numbers))
}

/// The lines after the first two.
fn after_two(lines: &[Line]) -> &[Line]
    ensures { result.now ≡ drop 2 lines.now }
{
    if lines.len() < 2 { &[] } else { &lines[2..] }
}

/// The part whose `part` line stands before these lines.
fn part_of(alloc: Global, lines: &[Line]) -> Result<Part, AllocError>
    ensures { IfOk result (λ part. part ≡ part_of lines.now) }
{
    let ratio = words_at(lines, 0);
    let cycle = small_numbers(alloc, words_after(words_at(lines, 1), 1))?;
    let columns = columns_of(alloc, node_lines(after_two(lines)))?;
    let Columns {
        nodes,
        lag,
        lead,
        depth,
        via,
    } = columns;
    Ok(Part {
        nodes: Items::from_vec(nodes),
        p: value_below(RATIO, word_at(ratio, 1)),
        q: value_below(RATIO, word_at(ratio, 2)),
        cycle,
        lag: Items::from_vec(lag),
        lead: Items::from_vec(lead),
        via: Items::from_vec(via),
        depth: Items::from_vec(depth),
    })
}

/// A part for each `part` line.
pub(crate) fn parts_of(alloc: Global, lines: &[Line]) -> Result<Items<Part>, AllocError>
    ensures { IfOk result (λ parts. parts ≡ parts_of lines.now) }
{
    let mut parts = Vec::new(alloc);
    let mut rest = lines;
    while let [line, after @ ..] = rest {
        if begins_with(b"part", line.words.as_slice()) {
            parts.push(part_of(alloc, after)?)?;
        }
        rest = after;
    }
    Ok(Items::from_vec(parts))
}

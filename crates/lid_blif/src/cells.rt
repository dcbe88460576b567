//! The cells and the instances of a model.

ghost use Rattle.std.specs.Prelude.{◌≡◌, ◌≤◌, ◌++◌, List, length, map, take, drop, IfOk, OnOk};
ghost use Rattle.std.specs.List.{list_any};
ghost use Rattle.lid_design.specs.declared.Cell.{Cell};
ghost use Rattle.lid_blif.specs.Words.{keyword_of, inputs_of};
ghost use Rattle.lid_blif.specs.Faults.{ends_in_zero};
ghost use Rattle.lid_blif.specs.Designs.{IsNarrow, mask_of, is_cared_for, is_character_one, cube_of, cover_of, names_cell, kind_of, control_of, init_of, latch_cell, bind_of, inst_of, cell_before};

use crate::keyword::Keyword;
use crate::line::{TextLine, Words, copy_words, last_word, word_at, words_after, words_before};
use crate::shapes::{actual, formal, has_init, has_type};
use crate::words::{is_zero_row, leading_rows};
use lid_base::{Items, Name, copy_name, is_same};
use lid_cover::{Cover, Cube};
use lid_design::{Bind, Cell, Init, Inst, LatchKind};
use std::alloc::{AllocError, Global};

fn cube_from(characters: &[u8]) -> Cube
    requires { length characters.now ≤ 64 }
    ensures care { result.care ≡ mask_of (map is_cared_for characters.now) }
    ensures value { result.value ≡ mask_of (map is_character_one characters.now) }
{
    let mut care: u64 = 0;
    let mut value: u64 = 0;
    let mut at = characters.len();
    while at > 0 {
        at -= 1;
        let character = characters[at];
        care = 2 * care + u64::from(character != b'-');
        value = 2 * value + u64::from(character == b'1');
    }
    Cube { care, value }
}

fn cube_of(inputs: usize, row: &TextLine<'_, '_>) -> Cube
    requires { inputs ≤ 64 }
    ensures { result ≡ cube_of inputs row.now }
{
    let characters = word_at(&row.words(), 0);
    if inputs < characters.len() {
        cube_from(&characters[..inputs])
    } else {
        cube_from(characters)
    }
}

fn cubes_of(
    alloc: Global,
    inputs: usize,
    rows: &[TextLine<'_, '_>],
) -> Result<Items<Cube>, AllocError>
    requires { inputs ≤ 64 }
    ensures { IfOk result (λ cubes. cubes ≡ map (cube_of inputs) rows.now) }
{
    let mut cubes = Vec::with_capacity(alloc, rows.len())?;
    for row in rows {
        cubes.push(cube_of(inputs, row))?;
    }
    Ok(Items::from_vec(cubes))
}

fn has_zero(rows: &[TextLine<'_, '_>]) -> bool
    ensures { result ≡ list_any ends_in_zero rows.now }
{
    for row in rows {
        if is_zero_row(row) {
            return true;
        }
    }
    false
}

fn cover_of(
    alloc: Global,
    words: &Words<'_>,
    rows: &[TextLine<'_, '_>],
) -> Result<Cover, AllocError>
    requires { inputs_of words.now ≤ 64 }
    ensures { IfOk result (λ cover. cover ≡ cover_of words.now rows.now) }
{
    let inputs = words.len().saturating_sub(2);
    let cubes = cubes_of(alloc, inputs, rows)?;
    Ok(Cover {
        inputs: inputs as u32,
        on: !has_zero(rows),
        cubes,
    })
}

fn inputs_of<'w>(words: &Words<'w>) -> Words<'w>
    ensures { result ≡ take (inputs_of words.now) (drop 1 words.now) }
{
    words_before(&words_after(words, 1), words.len().saturating_sub(2))
}

fn names_cell(
    alloc: Global,
    words: &Words<'_>,
    rows: &[TextLine<'_, '_>],
) -> Result<Cell, AllocError>
    requires { inputs_of words.now ≤ 64 }
    ensures { IfOk result (λ cell. cell ≡ names_cell words.now rows.now) }
{
    let inputs = copy_words(alloc, &inputs_of(words))?;
    let out = copy_name(alloc, last_word(words))?;
    let cover = cover_of(alloc, words, rows)?;
    Ok(Cell::Names { inputs, out, cover })
}

fn kind_of(words: &Words<'_>) -> LatchKind
    ensures { result ≡ kind_of words.now }
{
    if !has_type(words) {
        LatchKind::Plain
    } else if is_same(word_at(words, 3), b"re") {
        LatchKind::Rise
    } else {
        LatchKind::Fall
    }
}

fn control_of(alloc: Global, words: &Words<'_>) -> Result<Option<Name>, AllocError>
    ensures { IfOk result (λ control. control ≡ control_of words.now) }
{
    let name = word_at(words, 4);
    if !has_type(words) || is_same(name, b"NIL") {
        return Ok(None);
    }
    let name = copy_name(alloc, name)?;
    Ok(Some(name))
}

fn init_of(words: &Words<'_>) -> Init
    ensures { result ≡ init_of words.now }
{
    let init: &[u8] = if has_init(words) {
        last_word(words)
    } else {
        b"3"
    };
    match init {
        [b'0'] => Init::Zero,
        [b'1'] => Init::One,
        [b'2'] => Init::DontCare,
        _ => Init::Unknown,
    }
}

fn latch_cell(alloc: Global, words: &Words<'_>) -> Result<Cell, AllocError>
    ensures { IfOk result (λ cell. cell ≡ latch_cell words.now) }
{
    let input = copy_name(alloc, word_at(words, 1))?;
    let out = copy_name(alloc, word_at(words, 2))?;
    let control = control_of(alloc, words)?;
    Ok(Cell::Latch {
        input,
        out,
        kind: kind_of(words),
        control,
        init: init_of(words),
    })
}

/// Appends the cell of a line, if it has one. `later` has the lines after it.
pub fn push_cell(
    alloc: Global,
    line: &TextLine<'_, '_>,
    later: &[TextLine<'_, '_>],
    cells: &mut Vec<Cell>,
) -> Result<(), AllocError>
    requires { IsNarrow line.now }
    ensures { OnOk result ((more : List Cell)
        → cells.new.items ++ more ≡ cells.old.items ++ cell_before (keyword_of line.now.words) line.now.words later.now more) }
{
    let words = line.words();
    match line.keyword() {
        Keyword::Names => {
            let cell = names_cell(alloc, &words, leading_rows(later))?;
            cells.push(cell)?;
        }
        Keyword::Latch => {
            let cell = latch_cell(alloc, &words)?;
            cells.push(cell)?;
        }
        _ => {}
    }
    Ok(())
}

fn bind_of(alloc: Global, word: &[u8]) -> Result<Bind, AllocError>
    ensures { IfOk result (λ bind. bind ≡ bind_of word.now) }
{
    let formal = copy_name(alloc, formal(word))?;
    let actual = copy_name(alloc, actual(word))?;
    Ok(Bind { formal, actual })
}

fn binds_of(alloc: Global, words: &Words<'_>) -> Result<Items<Bind>, AllocError>
    ensures { IfOk result (λ binds. binds ≡ map bind_of words.now) }
{
    let mut binds = Vec::with_capacity(alloc, words.len())?;
    for at in 0..words.len() {
        let bind = bind_of(alloc, word_at(words, at))?;
        binds.push(bind)?;
    }
    Ok(Items::from_vec(binds))
}

/// The instance of a `.subckt` line.
pub fn inst_of(alloc: Global, line: &TextLine<'_, '_>) -> Result<Inst, AllocError>
    ensures { IfOk result (λ inst. inst ≡ inst_of line.now) }
{
    let words = line.words();
    let model = copy_name(alloc, word_at(&words, 1))?;
    let binds = binds_of(alloc, &words_after(&words, 2))?;
    Ok(Inst { model, binds })
}

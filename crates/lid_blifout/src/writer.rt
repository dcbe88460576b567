//! From a design to its canonical text.

ghost use Rattle.std.specs.Prelude.{◌≡◌, ◌≤◌, ℕ, List, length, ◌++◌, ◌∷◌, [], map, codes, None, OnOk, OnErr, ◌&&◌};
ghost use Rattle.std.specs.List.{flat_map};
ghost use Rattle.lid_base.specs.Lines.{logical_lines};
ghost use Rattle.lid_base.specs.Lists.{Keeps};
ghost use Rattle.lid_blif.specs.Faults.{blif_fault};
ghost use Rattle.lid_blif.specs.Designs.{design_of};
ghost use Rattle.lid_design.specs.declared.Design.{Design};
ghost use Rattle.lid_design.specs.declared.Cell.TheVariants.{Names, Latch};
ghost use Rattle.lid_base_lines.specs.Texts.{line_text, lines_text, spaced};
ghost use Rattle.lid_blifout.specs.Canonical.{listed, characters, cube_line, control_word, kind_words, init_word, output_word, character, bind_word, cell_lines, inst_line, body_lines, model_lines, models_lines, canonical_text};
ghost use Rattle.lid_blifout.specs.Writable.{IsWritable, HasPlainFormals};
ghost use Rattle.lid_blifout.specs.Pieces.{spaced_binds, asked_text};

use lid_base::Name;
use lid_base_lines::{append_keyword_line, append_word, append_words, cut_back};
use lid_cover::{Cover, Cube};
use lid_design::{Bind, Cell, Design, Init, Inst, LatchKind, Model};
use std::alloc::AllocError;

/// Appends a line with a keyword and names, where there are names.
fn append_listed(keyword: &[u8], names: &[Name], into: &mut Vec<u8>) -> Result<(), AllocError>
    ensures ok { OnOk result (into.new.items ≡ into.old.items ++ lines_text (listed keyword.now names.now)) }
    ensures kept { Keeps into.old.items into.new.items }
{
    if names.is_empty() {
        return Ok(());
    }
    append_keyword_line(keyword, names, into)
}

/// What a row asks of its first input.
fn character(care: u64, value: u64) -> u8
    ensures { result ≡ character care value }
{
    if care % 2 != 1 {
        b'-'
    } else if value % 2 == 1 {
        b'1'
    } else {
        b'0'
    }
}

/// Appends a character for each input of a row.
fn append_characters(inputs: u32, cube: &Cube, into: &mut Vec<u8>) -> Result<(), AllocError>
    ensures ok { OnOk result (into.new.items ≡ into.old.items ++ characters inputs cube.now.care cube.now.value) }
    ensures kept { Keeps into.old.items into.new.items }
{
    let mut care = cube.care;
    let mut value = cube.value;
    let mut left = inputs;
    while left > 0 {
        into.push(character(care, value))?;
        care /= 2;
        value /= 2;
        left -= 1;
    }
    Ok(())
}

/// Appends the output of a row, which ends its line.
fn append_output(on: bool, into: &mut Vec<u8>) -> Result<(), AllocError>
    ensures ok { OnOk result (into.new.items ≡ into.old.items ++ (output_word on ++ 10 ∷ [])) }
    ensures kept { Keeps into.old.items into.new.items }
{
    into.extend_from_slice(if on { b"1\n" } else { b"0\n" })
}

/// Appends what a row asks of its inputs, and a blank, where there are inputs.
fn append_asked(inputs: u32, cube: &Cube, into: &mut Vec<u8>) -> Result<(), AllocError>
    ensures ok { OnOk result (into.new.items ≡ into.old.items ++ asked_text inputs cube.now) }
    ensures kept { Keeps into.old.items into.new.items }
{
    if inputs > 0 {
        append_characters(inputs, cube, into)?;
        into.push(b' ')?;
    }
    Ok(())
}

/// Appends the line of a row.
fn append_cube(inputs: u32, on: bool, cube: &Cube, into: &mut Vec<u8>) -> Result<(), AllocError>
    ensures ok { OnOk result (into.new.items ≡ into.old.items ++ line_text (cube_line inputs on cube.now)) }
    ensures kept { Keeps into.old.items into.new.items }
{
    append_asked(inputs, cube, into)?;
    append_output(on, into)
}

/// Appends the lines of a cover's rows.
fn append_cubes(cover: &Cover, into: &mut Vec<u8>) -> Result<(), AllocError>
    ensures ok { OnOk result (into.new.items ≡ into.old.items ++ lines_text (map (cube_line cover.now.inputs cover.now.on) cover.now.cubes)) }
    ensures kept { Keeps into.old.items into.new.items }
{
    for cube in cover.cubes.as_slice() {
        append_cube(cover.inputs, cover.on, cube, into)?;
    }
    Ok(())
}

/// Appends the line of a cover without its rows.
fn append_cover_line(inputs: &[Name], out: &Name, into: &mut Vec<u8>) -> Result<(), AllocError>
    ensures ok { OnOk result (into.new.items ≡ into.old.items ++ line_text (codes ".names" ∷ inputs.now ++ out.now ∷ [])) }
    ensures kept { Keeps into.old.items into.new.items }
{
    into.extend_from_slice(b".names")?;
    append_words(inputs, into)?;
    append_word(out.as_slice(), into)?;
    into.push(b'\n')?;
    Ok(())
}

/// Appends the lines of a cover.
fn append_cover(
    inputs: &[Name],
    out: &Name,
    cover: &Cover,
    into: &mut Vec<u8>,
) -> Result<(), AllocError>
    ensures ok { OnOk result (into.new.items ≡ into.old.items ++ lines_text (cell_lines (Names inputs.now out.now cover.now))) }
    ensures kept { Keeps into.old.items into.new.items }
{
    append_cover_line(inputs, out, into)?;
    append_cubes(cover, into)
}

fn control_word(control: &Option<Name>) -> &[u8]
    ensures { result.now ≡ control_word control.now }
{
    match control {
        Some(name) => name.as_slice(),
        None => b"NIL",
    }
}

/// Appends the type and the control of a latch.
fn append_kind(
    kind: LatchKind,
    control: &Option<Name>,
    into: &mut Vec<u8>,
) -> Result<(), AllocError>
    ensures ok { OnOk result (into.new.items ≡ into.old.items ++ spaced (kind_words kind control.now)) }
    ensures kept { Keeps into.old.items into.new.items }
{
    match kind {
        LatchKind::Plain => Ok(()),
        LatchKind::Rise => {
            append_word(b"re", into)?;
            append_word(control_word(control), into)
        }
        LatchKind::Fall => {
            append_word(b"fe", into)?;
            append_word(control_word(control), into)
        }
    }
}

fn init_word(init: Init) -> &'static [u8]
    ensures { result.now ≡ init_word init }
{
    match init {
        Init::Zero => b"0",
        Init::One => b"1",
        Init::DontCare => b"2",
        Init::Unknown => b"3",
    }
}

/// Appends the line of a latch.
fn append_latch(
    input: &Name,
    out: &Name,
    kind: LatchKind,
    control: &Option<Name>,
    init: Init,
    into: &mut Vec<u8>,
) -> Result<(), AllocError>
    ensures ok { OnOk result (into.new.items ≡ into.old.items ++ lines_text (cell_lines (Latch input.now out.now kind control.now init))) }
    ensures kept { Keeps into.old.items into.new.items }
{
    into.extend_from_slice(b".latch")?;
    append_word(input.as_slice(), into)?;
    append_word(out.as_slice(), into)?;
    append_kind(kind, control, into)?;
    append_word(init_word(init), into)?;
    into.push(b'\n')?;
    Ok(())
}

/// Appends the lines of a cell.
fn append_cell(cell: &Cell, into: &mut Vec<u8>) -> Result<(), AllocError>
    ensures ok { OnOk result (into.new.items ≡ into.old.items ++ lines_text (cell_lines cell.now)) }
    ensures kept { Keeps into.old.items into.new.items }
{
    match cell {
        Cell::Names { inputs, out, cover } => append_cover(inputs.as_slice(), out, cover, into),
        Cell::Latch {
            input,
            out,
            kind,
            control,
            init,
        } => append_latch(input, out, *kind, control, *init, into),
    }
}

/// Appends the lines of the cells.
#[tactic(auto, using(lid_base_lines::proofs::Pieces::lines_text_append))]
fn append_cells(cells: &[Cell], into: &mut Vec<u8>) -> Result<(), AllocError>
    ensures ok { OnOk result (into.new.items ≡ into.old.items ++ lines_text (flat_map cell_lines cells.now)) }
    ensures kept { Keeps into.old.items into.new.items }
{
    for cell in cells {
        append_cell(cell, into)?;
    }
    Ok(())
}

/// Appends a blank and a binding.
fn append_bind(bind: &Bind, into: &mut Vec<u8>) -> Result<(), AllocError>
    ensures ok { OnOk result (into.new.items ≡ into.old.items ++ 32 ∷ bind_word bind.now) }
    ensures kept { Keeps into.old.items into.new.items }
{
    append_word(bind.formal.as_slice(), into)?;
    into.push(b'=')?;
    into.extend_from_slice(bind.actual.as_slice())
}

/// Appends the bindings, each after a blank.
fn append_binds(binds: &[Bind], into: &mut Vec<u8>) -> Result<(), AllocError>
    ensures ok { OnOk result (into.new.items ≡ into.old.items ++ spaced_binds binds.now) }
    ensures kept { Keeps into.old.items into.new.items }
{
    for bind in binds {
        append_bind(bind, into)?;
    }
    Ok(())
}

/// Appends the line of an instance.
fn append_inst(inst: &Inst, into: &mut Vec<u8>) -> Result<(), AllocError>
    ensures ok { OnOk result (into.new.items ≡ into.old.items ++ line_text (inst_line inst.now)) }
    ensures kept { Keeps into.old.items into.new.items }
{
    into.extend_from_slice(b".subckt")?;
    append_word(inst.model.as_slice(), into)?;
    append_binds(inst.binds.as_slice(), into)?;
    into.push(b'\n')?;
    Ok(())
}

/// Appends the lines of the instances.
fn append_insts(insts: &[Inst], into: &mut Vec<u8>) -> Result<(), AllocError>
    ensures ok { OnOk result (into.new.items ≡ into.old.items ++ lines_text (map inst_line insts.now)) }
    ensures kept { Keeps into.old.items into.new.items }
{
    for inst in insts {
        append_inst(inst, into)?;
    }
    Ok(())
}

/// Appends the first line of a model.
fn append_title(name: &Name, into: &mut Vec<u8>) -> Result<(), AllocError>
    ensures ok { OnOk result (into.new.items ≡ into.old.items ++ line_text (codes ".model" ∷ name.now ∷ [])) }
    ensures kept { Keeps into.old.items into.new.items }
{
    into.extend_from_slice(b".model")?;
    append_word(name.as_slice(), into)?;
    into.push(b'\n')?;
    Ok(())
}

/// Appends the lines of a model.
fn append_model(model: &Model, into: &mut Vec<u8>) -> Result<(), AllocError>
    ensures ok { OnOk result (into.new.items ≡ into.old.items ++ lines_text (model_lines model.now)) }
    ensures kept { Keeps into.old.items into.new.items }
{
    append_title(&model.name, into)?;
    append_listed(b".inputs", model.inputs.as_slice(), into)?;
    append_listed(b".outputs", model.outputs.as_slice(), into)?;
    append_listed(b".clock", model.clocks.as_slice(), into)?;
    append_cells(model.cells.as_slice(), into)?;
    append_insts(model.insts.as_slice(), into)?;
    into.extend_from_slice(b".end\n")
}

/// Appends the lines of the models, one after the other.
#[tactic(auto, using(lid_base_lines::proofs::Pieces::lines_text_append))]
fn append_each(models: &[Model], into: &mut Vec<u8>) -> Result<(), AllocError>
    ensures ok { OnOk result (into.new.items ≡ into.old.items ++ lines_text (models_lines models.now)) }
    ensures kept { Keeps into.old.items into.new.items }
{
    for model in models {
        append_model(model, into)?;
    }
    Ok(())
}

/// Appends the lines of models as they are written, whether they can be read back or not.
///
/// # Errors
/// Where there is no memory; `into` is then as it was.
pub fn append_models(models: &[Model], into: &mut Vec<u8>) -> Result<(), AllocError>
    ensures ok { OnOk result (into.new.items ≡ into.old.items ++ lines_text (models_lines models.now)) }
    ensures err { OnErr result (into.new.items ≡ into.old.items) }
{
    cut_back(into.len(), append_each(models, into), into)
}

/// The canonical text of a writable design is read as that design.
pub fn read_back_law()
    ensures { (d : Design) → IsWritable d → (blif_fault (canonical_text d) ≡ None) × (design_of (logical_lines (canonical_text d)) ≡ d) }
{}

/// A design that was read is writable where none of its formals ends in a backslash, and its
/// canonical text is short enough to be read.
pub fn writable_law()
    ensures { (bytes : List ℕ) → blif_fault bytes ≡ None → HasPlainFormals (design_of (logical_lines bytes))
        → length (canonical_text (design_of (logical_lines bytes))) ≤ 16777216 → IsWritable (design_of (logical_lines bytes)) }
{}

/// Appends the canonical text of a design: its models in order, and of each its name, its inputs,
/// outputs and clocks, its cells, its instances and `.end`, a line for each.
///
/// The design is writable. It has a model, its root is the first, and no two models share a name.
/// Each name is one word of 1 to 1,024 bytes from 33 to 126 without `#`, whose last byte is not a
/// backslash. No formal has a `=`, and a binding as a word is as short and ends as well. A latch
/// has a control only where it has a type, and no control is named `NIL`. Each cover meets the
/// rules of `lid_cover`, has as many inputs as names, and is `on` where it has no rows. There are
/// at most 4,096 models and 1,048,576 rows, and the text has at most 16,777,216 bytes.
///
/// # Errors
/// Where there is no memory; `into` is then as it was.
#[tactic(auto, unfolding(crate::specs::Canonical::canonical_text))]
pub fn write(design: &Design, into: &mut Vec<u8>) -> Result<(), AllocError>
    requires { IsWritable design.now }
    ensures ok { OnOk result (into.new.items ≡ into.old.items ++ canonical_text design.now) }
    ensures read_back { (blif_fault (canonical_text design.now) ≡ None) × (design_of (logical_lines (canonical_text design.now)) ≡ design.now) }
    ensures err { OnErr result (into.new.items ≡ into.old.items) }
{
    append_models(design.models.as_slice(), into)
}

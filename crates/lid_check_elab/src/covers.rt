//! Covers by their places in a design.

ghost use Rattle.std.specs.Prelude.{◌≡◌, option_map, slice_get};
ghost use Rattle.std.specs.Option.{option_map_or};
ghost use denote.Ref.{Bor};
ghost use Rattle.lid_cover.specs.declared.Cover.{Cover};
ghost use Rattle.lid_design.specs.declared.Cell.{Cell};
ghost use Rattle.lid_check_elab.specs.Covers.{cells_at, no_cover, cover_in};

use lid_check_names::model_at;
use lid_design::Design;

/// The cover of a cell of a model; none where it is no cover.
pub fn cover_at<'d>(design: &'d Design, model: u32, cell: u32) -> Option<&'d lid_cover::Cover>
    ensures { option_map_or (λ (c : Bor Cover). c.now) result no_cover ≡ cover_in design.now model cell }
{
    match cell_at(design, model, cell) {
        Some(lid_design::Cell::Names { cover, .. }) => Some(cover),
        _ => None,
    }
}

/// The cell of a number of a model.
fn cell_at<'d>(design: &'d Design, model: u32, cell: u32) -> Option<&'d lid_design::Cell>
    ensures { option_map (λ (c : Bor Cell). c.now) result ≡ slice_get (cells_at design.now model) cell }
{
    match model_at(design, model) {
        Some(body) => item_at(body.cells.as_slice(), cell),
        None => None,
    }
}

/// The cell of a number.
fn item_at(cells: &[lid_design::Cell], number: u32) -> Option<&lid_design::Cell>
    ensures { option_map (λ (c : Bor Cell). c.now) result ≡ slice_get cells.now number }
{
    if (number as usize) < cells.len() {
        Some(&cells[number as usize])
    } else {
        None
    }
}

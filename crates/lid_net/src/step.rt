//! One step back from a column.

ghost use Rattle.std.specs.Prelude.{◌≡◌, [], ◌∷◌, length};
ghost use Rattle.lid_cover.specs.Cover.{IsCover};
ghost use Rattle.lid_check_parts.specs.Parts.{HasCover};
ghost use Rattle.lid_net.specs.Steps.{cover_step, step_from};

use crate::origin::Origin;
use lid_check_elab::{ColumnDriver, cover_at};
use lid_check_rules::passes_on;
use lid_cover::{Cover, eval};
use lid_design::Design;

/// One step back from a column.
#[derive(Clone, Copy)]
pub enum BackStep {
    /// It is led back to this.
    Ends(Origin),
    /// It is led back to where the column of this number is led back to.
    Passes(u32),
    /// It is led back to nothing.
    Stops,
}

/// The step back from what is driven so.
pub(crate) fn step_of(design: &Design, driver: &ColumnDriver) -> BackStep
    requires { HasCover design.now driver.now }
    ensures { result ≡ step_from design.now driver.now }
{
    match driver {
        ColumnDriver::Input(place) => BackStep::Ends(Origin::Port {
            node: 0,
            place: *place,
        }),
        ColumnDriver::Latch { .. } => BackStep::Stops,
        ColumnDriver::Cover {
            model,
            cell,
            inputs,
        } => match cover_at(design, *model, *cell) {
            Some(cover) => step_through(cover, inputs.as_slice()),
            None => BackStep::Ends(Origin::Const(true)),
        },
        ColumnDriver::Connection(other) => BackStep::Passes(*other),
    }
}

/// The step back through a cover: to its value where it is a constant, and to its input where it is a
/// buffer.
fn step_through(cover: &Cover, inputs: &[u32]) -> BackStep
    requires rules { IsCover cover.now }
    requires inputs { cover.now.inputs ≡ length inputs.now }
    ensures { result ≡ cover_step cover.now inputs.now }
{
    match inputs {
        [] => BackStep::Ends(Origin::Const(eval(cover, 0))),
        [input] => step_past(cover, *input),
        _ => BackStep::Stops,
    }
}

/// The step back through a cover of one input.
fn step_past(cover: &Cover, input: u32) -> BackStep
    requires { IsCover cover.now }
    ensures { result ≡ cover_step cover.now (input ∷ []) }
{
    if passes_on(cover) {
        BackStep::Passes(input)
    } else {
        BackStep::Stops
    }
}

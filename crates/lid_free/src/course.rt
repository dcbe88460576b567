//! The streams of a run.

ghost use Rattle.std.specs.Prelude.{◌≤◌, length};
ghost use Rattle.std.specs.List.{All};
ghost use Rattle.lid_system.specs.Systems.{IsWellFormed};
ghost use Rattle.lid_stations.specs.Placements.{Fits};
ghost use Rattle.lid_shell_laws.specs.Setups.{IsInputRow};
ghost use Rattle.lid_texts_packed.specs.Input.{input_of};
ghost use Rattle.lid_free.specs.Courses.{streams_of};

use lid_board::Course;
use lid_stations::Placement;
use lid_system::System;
use lid_texts_packed::InputRows;

/// The course of a run: its streams are the strict streams of its stations, in order.
///
/// The system is well formed and the placement fits it. There are at most 1,000,000 rows, each as wide as the source.
#[derive(Drop)]
pub struct StrictCourse<'r> {
    /// The system.
    pub system: &'r System,
    /// Its stations.
    pub placement: &'r Placement,
    /// The input rows.
    pub rows: InputRows<'r>,
    ghost formed: { ∥ IsWellFormed system.now ∥₁ },
    ghost fits: { Fits system.now placement.now },
    ghost few: { length (input_of rows) ≤ 1000000 },
    ghost wide: { All (IsInputRow system.now) (input_of rows) },
}

impl Course for StrictCourse<'_> {
    ghost streams = { λ c. streams_of c.system.now c.placement.now (input_of c.rows) c.fits c.formed };
}

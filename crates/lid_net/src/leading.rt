//! Columns that are led back, each after those that it reads.

ghost use Rattle.std.specs.Prelude.{◌≡◌, ◌<◌, length, map};
ghost use Rattle.std.specs.List.{AllByRecursion};
ghost use Rattle.lid_check_digraph.specs.Graphs.{IsOrder};
ghost use Rattle.lid_check_elab.specs.Elaborations.{driver_reads};
ghost use Rattle.lid_check_parts.specs.Parts.{HasCover};
ghost use Rattle.lid_net.specs.Steps.{origin_at, origin_after, known_or, step_from, AreOrigins};

use crate::origin::Origin;
use crate::step::{BackStep, step_of};
use lid_check_elab::ColumnDriver;
use lid_design::Design;

/// Finds where each number of a network is led back to, in an order in which each number stands after
/// those that it reads. Where an origin is known at first, it stays. It takes no memory.
pub fn lead_back(
    design: &Design,
    drivers: &[ColumnDriver],
    order: &[u32],
    origins: &mut [Option<Origin>],
)
    requires size { length origins.old ≡ length drivers.now }
    requires ordered { IsOrder (map driver_reads drivers.now) order.now }
    requires covers { AllByRecursion (HasCover design.now) drivers.now }
    ensures size { length origins.new ≡ length drivers.now }
    ensures origins { AreOrigins design.now drivers.now origins.old origins.new }
{
    for number in order {
        let k = *number as usize;
        let origin = found_origin(design, &drivers[k], k, origins);
        origins[k] = origin;
    }
}

/// The origin of a number: the one that is known, and else that by the step back from its driver.
fn found_origin(
    design: &Design,
    driver: &ColumnDriver,
    k: usize,
    origins: &[Option<Origin>],
) -> Option<Origin>
    requires cover { HasCover design.now driver.now }
    requires there { k < length origins.now }
    ensures { result ≡ known_or (origin_at origins.now k) (origin_after origins.now (step_from design.now driver.now)) }
{
    match origins[k] {
        Some(origin) => Some(origin),
        None => next_origin(design, driver, origins),
    }
}

/// Where a number is led back to, by where the one that it passes on is.
fn next_origin(design: &Design, driver: &ColumnDriver, origins: &[Option<Origin>]) -> Option<Origin>
    requires cover { HasCover design.now driver.now }
    ensures { result ≡ origin_after origins.now (step_from design.now driver.now) }
{
    match step_of(design, driver) {
        BackStep::Ends(origin) => Some(origin),
        BackStep::Passes(other) => origin_of(origins, other),
        BackStep::Stops => None,
    }
}

/// The origin of a number; none past the last.
pub fn origin_of(origins: &[Option<Origin>], number: u32) -> Option<Origin>
    ensures { result ≡ origin_at origins.now number }
{
    match origins.get(number as usize) {
        Some(origin) => *origin,
        None => None,
    }
}

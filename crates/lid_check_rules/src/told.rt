ghost use Rattle.std.specs.Prelude.{◌≡◌};
ghost use Rattle.lid_check_rules.specs.Told.{shown_of};
ghost use Rattle.lid_check_rules.specs.Conditions.{or_fault};

use lid_base::Which;

/// A condition that tells a name of a model. Each variant stands for that of `CheckFault`.
#[derive(Clone, Copy)]
pub enum NameFault {
    DuplicateName,
    TwoDrivers,
    Undriven,
    ClockUse,
    MixedEdges,
}

/// A condition that tells an instance of a model, and a name at it. Each variant stands for that of
/// `CheckFault`.
#[derive(Clone, Copy)]
pub enum InstFault {
    UnknownModel,
    UnknownFormal,
    FormalTwice,
    Unbound,
}

/// What a condition tells, by names that lie in the design. It stands for a `CheckFault`, which has
/// copies of the names.
#[derive(Clone, Copy)]
pub enum Told<'d> {
    OfName {
        fault: NameFault,
        model: &'d [u8],
        name: &'d [u8],
    },
    OfInst {
        fault: InstFault,
        model: &'d [u8],
        inst: u32,
        name: &'d [u8],
    },
    Recursive {
        model: &'d [u8],
    },
    TwoClocks {
        first: &'d [u8],
        second: &'d [u8],
    },
    RootLogic {
        name: &'d [u8],
    },
    Limit {
        which: Which,
        count: u64,
    },
    Memory,
}

/// What is told first of two conditions.
pub fn first_of<'d>(earlier: Option<Told<'d>>, later: Option<Told<'d>>) -> Option<Told<'d>>
    ensures { shown_of result ≡ or_fault (shown_of earlier.entry) (shown_of later.entry) }
{
    match earlier {
        Some(told) => Some(told),
        None => later,
    }
}

ghost use Rattle.std.specs.Prelude.{◌≡◌};
ghost use Rattle.lid_check_rules.specs.declared.fault.CheckFault.TheVariants.{Memory};

use lid_base::{Items, Name, Which};
use std::alloc::{AllocError, AllocFailed};

/// Why a design is not accepted. `inst` is the number of an instance in its model, counted from 0.
#[derive(Drop)]
pub enum CheckFault {
    /// No model has the name that was chosen for the root.
    NoRoot,
    /// A name stands twice in a list of a model, or in lists that exclude each other.
    DuplicateName {
        model: Name,
        name: Name,
    },
    /// No model has the name that an instance gives.
    UnknownModel {
        model: Name,
        inst: u32,
        name: Name,
    },
    /// A model reaches itself through instances.
    Recursive {
        model: Name,
    },
    /// A formal is in no list of the model of its instance.
    UnknownFormal {
        model: Name,
        inst: u32,
        formal: Name,
    },
    /// A formal is bound twice in an instance.
    FormalTwice {
        model: Name,
        inst: u32,
        formal: Name,
    },
    /// A data input of an instance is not bound.
    Unbound {
        model: Name,
        inst: u32,
        formal: Name,
    },
    /// A net is driven more than once.
    TwoDrivers {
        model: Name,
        name: Name,
    },
    /// A net is read and not driven.
    Undriven {
        model: Name,
        name: Name,
    },
    /// A clock name is no input of its model, or it is read or driven.
    ClockUse {
        model: Name,
        name: Name,
    },
    /// The root has more than one clock name.
    TwoClocks {
        first: Name,
        second: Name,
    },
    /// A latch takes its input at another edge than the first latch with a type.
    MixedEdges {
        model: Name,
        name: Name,
    },
    /// A root with instances has a cell that is neither a buffer nor a constant.
    RootLogic {
        name: Name,
    },
    /// A limit is exceeded. The count is told as at most 4,294,967,295.
    Limit {
        which: Which,
        count: u64,
    },
    /// A column lies on a closed walk. The path has the instance numbers from the root's on.
    CombLoop {
        path: Items<u32>,
        name: Name,
    },
    /// In one row, an output of a pearl depends on an input of it.
    OutputFromInput {
        model: Name,
        output: Name,
        input: Name,
    },
    /// There was no memory.
    Memory,
}

impl From<AllocError> for CheckFault {
    ghost from_gives = { λ _ fault. fault ≡ Memory };

    fn from(_error: AllocError) -> CheckFault {
        CheckFault::Memory
    }
}

impl<T: Drop> From<AllocFailed<T>> for CheckFault {
    ghost from_gives = { λ _ fault. fault ≡ Memory };

    fn from(_error: AllocFailed<T>) -> CheckFault {
        CheckFault::Memory
    }
}

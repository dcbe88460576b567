ghost use Rattle.std.specs.Prelude.{◌≡◌, ◌⊎◌, IfOk};
ghost use Rattle.lid_check_rules.specs.declared.fault.CheckFault.TheVariants.{Memory};
ghost use Rattle.lid_check_rules.specs.Told.{fault_of_told, name_fault, inst_fault};

use lid_base::{Name, copy_name};
use lid_check_rules::{CheckFault, InstFault, NameFault, Told};
use std::alloc::{AllocError, Global};

/// The fault that is told, with copies of its names.
pub fn copy_fault(alloc: Global, told: Told<'_>) -> CheckFault
    ensures { (result ≡ Memory) ⊎ (result ≡ fault_of_told told.entry) }
{
    match copy_told(alloc, told) {
        Ok(fault) => fault,
        Err(_) => CheckFault::Memory,
    }
}

/// The fault that is told, with copies of its names.
fn copy_told(alloc: Global, told: Told<'_>) -> Result<CheckFault, AllocError>
    ensures { IfOk result (λ fault. fault ≡ fault_of_told told.entry) }
{
    match told {
        Told::OfName { fault, model, name } => {
            let (model, name) = copy_two(alloc, model, name)?;
            Ok(name_fault(fault, model, name))
        }
        Told::OfInst {
            fault,
            model,
            inst,
            name,
        } => {
            let (model, name) = copy_two(alloc, model, name)?;
            Ok(inst_fault(fault, model, inst, name))
        }
        Told::Recursive { model } => Ok(CheckFault::Recursive {
            model: copy_name(alloc, model)?,
        }),
        Told::TwoClocks { first, second } => {
            let (first, second) = copy_two(alloc, first, second)?;
            Ok(CheckFault::TwoClocks { first, second })
        }
        Told::RootLogic { name } => Ok(CheckFault::RootLogic {
            name: copy_name(alloc, name)?,
        }),
        Told::Limit { which, count } => Ok(CheckFault::Limit { which, count }),
        Told::Memory => Ok(CheckFault::Memory),
    }
}

/// The fault of a condition that tells a name of a model.
fn name_fault(fault: NameFault, model: Name, name: Name) -> CheckFault
    ensures { result ≡ name_fault fault model name }
{
    match fault {
        NameFault::DuplicateName => CheckFault::DuplicateName { model, name },
        NameFault::TwoDrivers => CheckFault::TwoDrivers { model, name },
        NameFault::Undriven => CheckFault::Undriven { model, name },
        NameFault::ClockUse => CheckFault::ClockUse { model, name },
        NameFault::MixedEdges => CheckFault::MixedEdges { model, name },
    }
}

/// The fault of a condition that tells a name at an instance of a model.
fn inst_fault(fault: InstFault, model: Name, inst: u32, name: Name) -> CheckFault
    ensures { result ≡ inst_fault fault model inst name }
{
    match fault {
        InstFault::UnknownModel => CheckFault::UnknownModel { model, inst, name },
        InstFault::UnknownFormal => CheckFault::UnknownFormal {
            model,
            inst,
            formal: name,
        },
        InstFault::FormalTwice => CheckFault::FormalTwice {
            model,
            inst,
            formal: name,
        },
        InstFault::Unbound => CheckFault::Unbound {
            model,
            inst,
            formal: name,
        },
    }
}

/// Copies of two names.
fn copy_two(alloc: Global, first: &[u8], second: &[u8]) -> Result<(Name, Name), AllocError>
    ensures { IfOk result (λ names. (names.0 ≡ first.now) × (names.1 ≡ second.now)) }
{
    let first = copy_name(alloc, first)?;
    let second = copy_name(alloc, second)?;
    Ok((first, second))
}

ghost use Rattle.std.specs.Prelude.{◌≡◌, ◌⊎◌, IfOk, OnOk, IfErr};
ghost use Rattle.lid_design.specs.WellFormed.{IsWellFormed};
ghost use Rattle.lid_design.specs.Models.{HasNoRecursion, IsFirstRecursive};
ghost use Rattle.lid_check_rules.specs.declared.fault.CheckFault.TheVariants.{Memory};
ghost use Rattle.lid_check_rules.specs.Acceptance.{ModelsPass, IsModelFault, TellsRecursive};
ghost use Rattle.lid_check_rules.specs.Early.{TellsEarly, PassesEarly};
ghost use Rattle.lid_check_rules.specs.Told.{fault_of_told, shown_of, IsToldOf};

use crate::copies::copy_fault;
use crate::late::find_late;
use lid_check_hierarchy::{Survey, SurveyFault, Uses, find_uses, survey_models};
use lid_check_names::model_at;
use lid_check_ports::Ports;
use lid_check_rules::{CheckFault, Told, find_duplicate, find_unknown_model};
use lid_design::Design;
use std::alloc::{AllocError, Global};

/// Judges the models of a design by the conditions that speak of models: all but `NoRoot`,
/// `CombLoop` and `OutputFromInput`. It answers what was found of the models.
///
/// # Errors
/// The first condition that applies is told, at its first place. `Memory` may come at any design.
pub fn check_models<'d>(alloc: Global, design: &'d Design) -> Result<Survey<'d>, CheckFault>
    requires { IsWellFormed design.now }
    ensures ok { IfOk result (λ survey. survey ≡ design.now) }
    ensures pass { OnOk result (ModelsPass design.now) }
    ensures err { IfErr result (λ fault. (fault ≡ Memory) ⊎ IsModelFault design.now fault) }
{
    match judge_design(alloc, design) {
        Ok(survey) => Ok(survey),
        Err(told) => Err(copy_fault(alloc, told)),
    }
}

/// Judges the models of a design.
fn judge_design<'d>(alloc: Global, design: &'d Design) -> Result<Survey<'d>, Told<'d>>
    requires { IsWellFormed design.now }
    ensures ok { IfOk result (λ survey. survey ≡ design.now) }
    ensures pass { OnOk result (ModelsPass design.now) }
    ensures err { IfErr result (IsToldOf design.now) }
{
    let uses = match find_uses(alloc, design) {
        Ok(uses) => uses,
        Err(_) => return Err(Told::Memory),
    };
    match find_early(alloc, &uses) {
        Ok(None) => judge_uses(alloc, uses),
        Ok(Some(told)) => Err(told),
        Err(_) => Err(Told::Memory),
    }
}

/// Tells of the first condition before recursion that applies.
fn find_early<'d>(alloc: Global, uses: &Uses<'d>) -> Result<Option<Told<'d>>, AllocError>
    ensures { IfOk result (λ told. TellsEarly uses.now (shown_of told)) }
{
    let reached = uses.reached();
    match find_duplicate(alloc, uses.design(), reached)? {
        Some(told) => Ok(Some(told)),
        None => Ok(find_unknown_model(uses, reached)),
    }
}

/// Judges the models of a design that passes the conditions before recursion.
fn judge_uses<'d>(alloc: Global, uses: Uses<'d>) -> Result<Survey<'d>, Told<'d>>
    requires { PassesEarly uses }
    ensures ok { IfOk result (λ survey. survey ≡ uses.entry) }
    ensures pass { OnOk result (ModelsPass uses.entry) }
    ensures err { IfErr result (IsToldOf uses.entry) }
{
    let design = uses.design();
    match survey_models(alloc, uses) {
        Ok(survey) => judge_survey(alloc, survey),
        Err(SurveyFault::Recursive { model }) => Err(tell_recursive(design, model)),
        Err(SurveyFault::Memory) => Err(Told::Memory),
    }
}

/// Tells of a model that reaches itself.
fn tell_recursive<'d>(design: &'d Design, number: u32) -> Told<'d>
    requires formed { IsWellFormed design.now }
    requires first { IsFirstRecursive design.now number }
    ensures { TellsRecursive design.now (fault_of_told result) }
{
    match model_at(design, number) {
        Some(model) => Told::Recursive {
            model: model.name.as_slice(),
        },
        None => unreachable!(),
    }
}

/// Judges the models of a design by the conditions after recursion.
fn judge_survey<'d>(alloc: Global, survey: Survey<'d>) -> Result<Survey<'d>, Told<'d>>
    requires { PassesEarly survey }
    ensures ok { IfOk result (λ s. s ≡ survey.entry) }
    ensures pass { OnOk result (ModelsPass survey.entry) }
    ensures err { IfErr result (IsToldOf survey.entry) }
{
    let ports = match Ports::collect(alloc, survey) {
        Ok(ports) => ports,
        Err(_) => return Err(Told::Memory),
    };
    match judge_ports(alloc, &ports) {
        Ok(()) => Ok(ports.into_survey()),
        Err(told) => Err(told),
    }
}

/// Judges the models of a design by the conditions after recursion.
fn judge_ports<'d>(alloc: Global, ports: &Ports<'d>) -> Result<(), Told<'d>>
    requires early { PassesEarly ports.now }
    requires flat { HasNoRecursion ports.now }
    ensures pass { OnOk result (ModelsPass ports.now) }
    ensures err { IfErr result (IsToldOf ports.now) }
{
    match find_late(alloc, ports) {
        Ok(None) => Ok(()),
        Ok(Some(told)) => Err(told),
        Err(_) => Err(Told::Memory),
    }
}

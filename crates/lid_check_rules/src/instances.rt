ghost use Rattle.std.specs.Prelude.{◌≡◌, ◌<◌, ◌^◌, length, Some, slice_get, IfOk};
ghost use Rattle.lid_design.specs.Models.{IsReached, AreReached, insts_of};
ghost use Rattle.lid_check_rules.specs.Conditions.{in_insts};
ghost use Rattle.lid_check_rules.specs.Rules.{inst_rule, inst_at, by_inst, by_insts, told_formal};
ghost use Rattle.lid_check_rules.specs.Told.{fault_of_told, shown_of};

use crate::told::{InstFault, Told};
use lid_check_ports::{InstRule, Ports, find_formal};
use lid_design::{Inst, Model};
use std::alloc::{AllocError, Global};

/// Tells of the first of some conditions that an instance of a reached model breaks.
pub fn find_by_rules<'d>(
    alloc: Global,
    ports: &Ports<'d>,
    reached: &[u32],
    rules: &[InstRule],
) -> Result<Option<Told<'d>>, AllocError>
    requires { AreReached ports.now reached.now }
    ensures { IfOk result (λ told. shown_of told ≡ by_insts ports.now reached.now rules.now) }
{
    for rule in rules {
        let told = find_by_rule(alloc, ports, reached, *rule)?;
        if told.is_some() {
            return Ok(told);
        }
    }
    Ok(None)
}

/// Tells of the first instance of a reached model that breaks a condition.
fn find_by_rule<'d>(
    alloc: Global,
    ports: &Ports<'d>,
    reached: &[u32],
    rule: InstRule,
) -> Result<Option<Told<'d>>, AllocError>
    requires { AreReached ports.now reached.now }
    ensures { IfOk result (λ told. shown_of told ≡ by_inst rule ports.now reached.now) }
{
    for k in reached {
        let told = find_by_rule_at(alloc, ports, rule, *k)?;
        if told.is_some() {
            return Ok(told);
        }
    }
    Ok(None)
}

/// Tells of the first instance of the model of a number that breaks a condition.
fn find_by_rule_at<'d>(
    alloc: Global,
    ports: &Ports<'d>,
    rule: InstRule,
    k: u32,
) -> Result<Option<Told<'d>>, AllocError>
    requires { IsReached ports.now k }
    ensures { IfOk result (λ told. shown_of told ≡ inst_at rule ports.now k) }
{
    match ports.model(k) {
        Some(model) => find_by_rule_in(alloc, ports, rule, k, model),
        None => Ok(None),
    }
}

/// Tells of the first instance of a model that breaks a condition.
fn find_by_rule_in<'d>(
    alloc: Global,
    ports: &Ports<'d>,
    rule: InstRule,
    k: u32,
    model: &'d Model,
) -> Result<Option<Told<'d>>, AllocError>
    requires reached { IsReached ports.now k }
    requires model { slice_get ports.now.models k ≡ Some model.now }
    requires few { length model.now.insts < 2 ^ 32 }
    ensures { IfOk result (λ told. shown_of told ≡ in_insts (inst_rule rule ports.now model.now) model.now) }
{
    let insts = model.insts.as_slice();
    for i in 0..insts.len() {
        let told = find_by_rule_of(
            alloc,
            ports,
            rule,
            Site {
                model: k,
                inst: i as u32,
            },
            model,
            &insts[i],
        )?;
        if told.is_some() {
            return Ok(told);
        }
    }
    Ok(None)
}

/// The number of a model, and that of one of its instances.
#[derive(Clone, Copy)]
struct Site {
    model: u32,
    inst: u32,
}

/// What a condition tells of an instance.
fn find_by_rule_of<'d>(
    alloc: Global,
    ports: &Ports<'d>,
    rule: InstRule,
    site: Site,
    model: &'d Model,
    inst: &'d Inst,
) -> Result<Option<Told<'d>>, AllocError>
    requires reached { IsReached ports.now site.model }
    requires inst { slice_get (insts_of ports.now site.model) site.inst ≡ Some inst.now }
    ensures { IfOk result (λ told. shown_of told ≡ inst_rule rule ports.now model.now site.inst inst.now) }
{
    match find_formal(alloc, ports, rule, site.model, site.inst, inst)? {
        Some(formal) => Ok(Some(tell_formal(rule, model.name.as_slice(), site.inst, formal))),
        None => Ok(None),
    }
}

/// Tells of a formal.
fn tell_formal<'d>(rule: InstRule, model: &'d [u8], inst: u32, formal: &'d [u8]) -> Told<'d>
    ensures { fault_of_told result ≡ told_formal rule model.now inst formal.now }
{
    let fault = match rule {
        InstRule::UnknownFormal => InstFault::UnknownFormal,
        InstRule::FormalTwice => InstFault::FormalTwice,
        InstRule::Unbound => InstFault::Unbound,
    };
    Told::OfInst {
        fault,
        model,
        inst,
        name: formal,
    }
}

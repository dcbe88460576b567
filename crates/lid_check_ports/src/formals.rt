ghost use Rattle.std.specs.Prelude.{◌≡◌, Some, not, map, find, slice_get, IfOk};
ghost use Rattle.lid_design.specs.Columns.{is_among};
ghost use Rattle.lid_design.specs.Models.{IsReached, insts_of, is_twice, formal_of, formals};
ghost use Rattle.lid_check_ports.specs.Formals.{faulty_formal, name_behind, is_port_of, first_unbound_of};
ghost use Rattle.lid_check_names.specs.Names.{texts, firsts};

use crate::ports::{Port, Ports};
use lid_check_names::{NameSet, find_twice, list_formals};
use lid_design::{Bind, Inst};
use std::alloc::{AllocError, Global};

/// A condition that speaks of an instance.
#[derive(Clone, Copy)]
pub enum InstRule {
    /// Each formal is in a list of the instance's model.
    UnknownFormal,
    /// Each formal is bound once.
    FormalTwice,
    /// Each data input is bound.
    Unbound,
}

/// The first formal of an instance that breaks a condition.
pub fn find_formal<'d>(
    alloc: Global,
    ports: &Ports<'d>,
    rule: InstRule,
    k: u32,
    i: u32,
    inst: &'d Inst,
) -> Result<Option<&'d [u8]>, AllocError>
    requires reached { IsReached ports.now k }
    requires inst { slice_get (insts_of ports.now k) i ≡ Some inst.now }
    ensures { IfOk result (λ formal. name_behind formal ≡ faulty_formal rule ports.now inst.now) }
{
    match (rule, ports.model_of(k, i)) {
        (InstRule::FormalTwice, _) => find_again(alloc, inst),
        (InstRule::UnknownFormal, Some(sub)) => {
            Ok(first_unknown(ports, sub, inst.binds.as_slice()))
        }
        (InstRule::UnknownFormal, None) => Ok(None),
        (InstRule::Unbound, Some(sub)) => find_unbound(alloc, ports, sub, inst),
        (InstRule::Unbound, None) => Ok(None),
    }
}

/// The first formal that is in no list of a model.
fn first_unknown<'d>(ports: &Ports<'d>, sub: u32, binds: &'d [Bind]) -> Option<&'d [u8]>
    ensures { name_behind result ≡ find (λ formal. not (is_port_of ports.now sub formal)) (map formal_of binds.now) }
{
    for bind in binds {
        let formal = bind.formal.as_slice();
        if !is_port(ports, sub, formal) {
            return Some(formal);
        }
    }
    None
}

/// Whether a name is in a list of a model.
fn is_port(ports: &Ports<'_>, sub: u32, formal: &[u8]) -> bool
    ensures { result ≡ is_port_of ports.now sub formal.now }
{
    ports.has(Port::Input, sub, formal)
        || ports.has(Port::Output, sub, formal)
        || ports.has(Port::Clock, sub, formal)
}

/// The first formal that is bound twice in an instance.
fn find_again<'d>(alloc: Global, inst: &'d Inst) -> Result<Option<&'d [u8]>, AllocError>
    ensures { IfOk result (λ formal. name_behind formal ≡ find (is_twice (formals inst.now)) (formals inst.now)) }
{
    let formals = list_formals(alloc, inst.binds.as_slice())?;
    find_repeated(alloc, formals.as_slice())
}

/// The first of some names that stands among them more than once.
fn find_repeated<'d>(alloc: Global, names: &[&'d [u8]]) -> Result<Option<&'d [u8]>, AllocError>
    ensures { IfOk result (λ name. name_behind name ≡ find (is_twice (texts names.now)) (texts names.now)) }
{
    let twice = find_twice(alloc, names)?;
    Ok(first_in(names, &twice))
}

/// The first of some names that is in a set.
fn first_in<'d>(names: &[&'d [u8]], set: &NameSet<'d>) -> Option<&'d [u8]>
    ensures { name_behind result ≡ find (λ name. is_among name set.now) (texts names.now) }
{
    for name in names {
        if set.has(name) {
            return Some(*name);
        }
    }
    None
}

/// The first data input of a model that an instance does not bind.
fn find_unbound<'d>(
    alloc: Global,
    ports: &Ports<'d>,
    sub: u32,
    inst: &'d Inst,
) -> Result<Option<&'d [u8]>, AllocError>
    requires { IsReached ports.now sub }
    ensures { IfOk result (λ formal. name_behind formal ≡ first_unbound_of ports.now sub (firsts (formals inst.now))) }
{
    let bound = collect_bound(alloc, inst)?;
    Ok(first_unbound(ports, sub, &bound))
}

/// The formals that an instance binds.
fn collect_bound<'d>(alloc: Global, inst: &'d Inst) -> Result<NameSet<'d>, AllocError>
    ensures { IfOk result (λ set. set ≡ firsts (formals inst.now)) }
{
    let formals = list_formals(alloc, inst.binds.as_slice())?;
    NameSet::collect(alloc, formals.as_slice())
}

/// The first data input of a model that is not in a set.
fn first_unbound<'d>(ports: &Ports<'d>, sub: u32, bound: &NameSet<'d>) -> Option<&'d [u8]>
    requires { IsReached ports.now sub }
    ensures { name_behind result ≡ first_unbound_of ports.now sub bound.now }
{
    first_outside(ports.survey().data_inputs(sub), bound)
}

/// The first of some names that is not in a set.
fn first_outside<'d>(names: &[&'d [u8]], set: &NameSet<'d>) -> Option<&'d [u8]>
    ensures { name_behind result ≡ find (λ name. not (is_among name set.now)) (texts names.now) }
{
    for name in names {
        if !set.has(name) {
            return Some(*name);
        }
    }
    None
}

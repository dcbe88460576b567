ghost use Rattle.std.specs.Prelude.{◌≡◌, ◌||◌, not, ℕ, List, true, false, Some, map, slice_get, IfOk};
ghost use Rattle.std.specs.List.{list_all};
ghost use Rattle.lid_check_table.specs.Tables.{names_in};
ghost use Rattle.lid_design.specs.Models.{IsReached, AreReached};
ghost use Rattle.lid_check_ports.specs.declared.ports.Port.TheVariants.{Input, Clock};
ghost use Rattle.lid_check_ports.specs.Ports.{is_in};
ghost use Rattle.lid_check_ports.specs.Nets.{AreNets};
ghost use Rattle.lid_check_rules.specs.declared.names.NameRule.{NameRule};
ghost use Rattle.lid_check_rules.specs.Conditions.{first_told, is_undriven, is_misused};
ghost use Rattle.lid_check_rules.specs.Names.{told_by, first_by_rules, name_rule, name_at, by_names, is_faulty, told_name};
ghost use Rattle.lid_check_rules.specs.Told.{fault_of_told, shown_of};

use crate::told::{NameFault, Told, first_of};
use lid_check_names::NameSet;
use lid_check_ports::{Nets, Port, Ports, collect_nets};
use lid_check_table::is_marked;
use std::alloc::{AllocError, Global};

/// A condition that speaks of the names of a model.
#[derive(Clone, Copy)]
pub enum NameRule {
    /// A net is driven once at most.
    TwoDrivers,
    /// A net that is read is driven.
    Undriven,
    /// A clock name is an input, and neither read nor driven inside.
    ClockUse,
}

/// What the conditions that speak of names tell of a model, each for itself.
#[derive(Clone, Copy)]
struct Findings<'d> {
    two_drivers: Option<Told<'d>>,
    undriven: Option<Told<'d>>,
    clock_use: Option<Told<'d>>,
}

/// Tells of the first condition on names that a reached model breaks. What is driven and read in a
/// model is collected once for all of them.
pub fn find_by_names<'d>(
    alloc: Global,
    ports: &Ports<'d>,
    reached: &[u32],
) -> Result<Option<Told<'d>>, AllocError>
    requires { AreReached ports.now reached.now }
    ensures { IfOk result (λ told. shown_of told ≡ by_names ports.now reached.now) }
{
    let findings = list_findings(alloc, ports, reached)?;
    Ok(first_by_rules(findings.as_slice()))
}

/// What each condition on names tells of the reached models.
fn list_findings<'d>(
    alloc: Global,
    ports: &Ports<'d>,
    reached: &[u32],
) -> Result<Vec<Findings<'d>>, AllocError>
    requires { AreReached ports.now reached.now }
    ensures { IfOk result (λ list. (rule : NameRule) → map (told_by rule) list.items ≡ map (name_at rule ports.now) reached.now) }
{
    let mut list = Vec::new(alloc);
    for k in reached {
        list.push(findings_at(alloc, ports, *k)?)?;
    }
    Ok(list)
}

/// What is told first, where each condition is asked of all models before the next.
fn first_by_rules<'d>(findings: &[Findings<'d>]) -> Option<Told<'d>>
    ensures { shown_of result ≡ first_by_rules findings.now }
{
    let two_drivers = first_by(findings, NameRule::TwoDrivers);
    let undriven = first_by(findings, NameRule::Undriven);
    let clock_use = first_by(findings, NameRule::ClockUse);
    first_of(two_drivers, first_of(undriven, clock_use))
}

/// What a condition tells first.
fn first_by<'d>(findings: &[Findings<'d>], rule: NameRule) -> Option<Told<'d>>
    ensures { shown_of result ≡ first_told (told_by rule) findings.now }
{
    for found in findings {
        let told = told_by(found, rule);
        if told.is_some() {
            return told;
        }
    }
    None
}

/// What a condition tells.
fn told_by<'d>(found: &Findings<'d>, rule: NameRule) -> Option<Told<'d>>
    ensures { shown_of result ≡ told_by rule found.now }
{
    match rule {
        NameRule::TwoDrivers => found.two_drivers,
        NameRule::Undriven => found.undriven,
        NameRule::ClockUse => found.clock_use,
    }
}

/// What each condition on names tells of the model of a number.
fn findings_at<'d>(alloc: Global, ports: &Ports<'d>, k: u32) -> Result<Findings<'d>, AllocError>
    requires { IsReached ports.now k }
    ensures { IfOk result (λ found. (rule : NameRule) → told_by rule found ≡ name_at rule ports.now k) }
{
    let nets = collect_nets(alloc, ports, k)?;
    Ok(tell_each(ports, k, &nets))
}

/// What each condition on names tells of a model, by what is driven and read in it.
fn tell_each<'d>(ports: &Ports<'d>, k: u32, nets: &Nets<'_, 'd>) -> Findings<'d>
    requires reached { IsReached ports.now k }
    requires nets { AreNets ports.now k nets.now }
    ensures { (rule : NameRule) → told_by rule result ≡ name_rule rule ports.now nets.now.table.now }
{
    Findings {
        two_drivers: tell_first(ports, NameRule::TwoDrivers, k, nets),
        undriven: tell_first(ports, NameRule::Undriven, k, nets),
        clock_use: tell_first(ports, NameRule::ClockUse, k, nets),
    }
}

/// Tells of the first name of a model at which a condition is broken. The names are told apart by their
/// numbers, which go by where each comes first.
fn tell_first<'d>(
    ports: &Ports<'d>,
    rule: NameRule,
    k: u32,
    nets: &Nets<'_, 'd>,
) -> Option<Told<'d>>
    requires reached { IsReached ports.now k }
    requires nets { AreNets ports.now k nets.now }
    ensures { shown_of result ≡ name_rule rule ports.now nets.now.table.now }
{
    if is_unbroken(ports, rule, k, nets) {
        return None;
    }
    for number in 0..nets.table.len() {
        if is_faulty(ports, rule, k, nets, number) {
            return tell_at(rule, nets, number);
        }
    }
    None
}

/// Whether a condition is broken at no name of a model, where that is told without going over the names.
fn is_unbroken(ports: &Ports<'_>, rule: NameRule, k: u32, nets: &Nets<'_, '_>) -> bool
    requires reached { IsReached ports.now k }
    requires nets { AreNets ports.now k nets.now }
    ensures { result ≡ true → (name : List ℕ) → is_faulty rule ports.now nets.now.table.now name ≡ false }
{
    match rule {
        NameRule::TwoDrivers => false,
        NameRule::Undriven => false,
        NameRule::ClockUse => are_clocks_used(ports, k, nets),
    }
}

/// Whether each clock name of a model is used as one.
fn are_clocks_used(ports: &Ports<'_>, k: u32, nets: &Nets<'_, '_>) -> bool
    requires reached { IsReached ports.now k }
    requires nets { AreNets ports.now k nets.now }
    ensures { result ≡ true → (name : List ℕ) → is_misused ports.now nets.now.table.now name ≡ false }
{
    are_all_used(ports, k, nets, ports.survey().clocks_of(k))
}

/// Whether each of some names is used as one may use it.
fn are_all_used(ports: &Ports<'_>, k: u32, nets: &Nets<'_, '_>, names: &NameSet<'_>) -> bool
    requires reached { IsReached ports.now k }
    requires nets { AreNets ports.now k nets.now }
    ensures { result ≡ true → list_all (λ name. not (is_misused ports.now nets.now.table.now name)) names.now ≡ true }
{
    for i in 0..names.len() {
        if !is_used_at(ports, k, nets, names, i) {
            return false;
        }
    }
    true
}

/// Whether the name at a place is used as one may use it.
fn is_used_at(
    ports: &Ports<'_>,
    k: u32,
    nets: &Nets<'_, '_>,
    names: &NameSet<'_>,
    place: usize,
) -> bool
    requires reached { IsReached ports.now k }
    requires nets { AreNets ports.now k nets.now }
    ensures { result ≡ true → (name : List ℕ) → slice_get names.now place ≡ Some name → is_misused ports.now nets.now.table.now name ≡ false }
{
    match names.name_at(place) {
        Some(name) => is_used(ports, k, nets, name),
        None => false,
    }
}

/// Whether a name of a model is no clock name, or is used as one.
fn is_used(ports: &Ports<'_>, k: u32, nets: &Nets<'_, '_>, name: &[u8]) -> bool
    requires reached { IsReached ports.now k }
    requires nets { AreNets ports.now k nets.now }
    ensures { result ≡ true → is_misused ports.now nets.now.table.now name.now ≡ false }
{
    match nets.table.number_of(name) {
        Some(number) => !is_misused(ports, k, nets, number, name),
        None => false,
    }
}

/// Tells of the name of a number.
fn tell_at<'d>(rule: NameRule, nets: &Nets<'_, 'd>, number: usize) -> Option<Told<'d>>
    ensures { (name : List ℕ) → slice_get (names_in nets.now.table.now) number ≡ Some name → shown_of result ≡ Some (told_name rule nets.now.table.now.name name) }
{
    match nets.table.name_at(number) {
        Some(name) => Some(tell_name(rule, nets.table.model().name.as_slice(), name)),
        None => None,
    }
}

/// Tells of a name.
fn tell_name<'d>(rule: NameRule, model: &'d [u8], name: &'d [u8]) -> Told<'d>
    ensures { fault_of_told result ≡ told_name rule model.now name.now }
{
    let fault = match rule {
        NameRule::TwoDrivers => NameFault::TwoDrivers,
        NameRule::Undriven => NameFault::Undriven,
        NameRule::ClockUse => NameFault::ClockUse,
    };
    Told::OfName { fault, model, name }
}

/// Whether a condition is broken at the name of a number.
fn is_faulty(ports: &Ports<'_>, rule: NameRule, k: u32, nets: &Nets<'_, '_>, number: usize) -> bool
    requires reached { IsReached ports.now k }
    requires nets { AreNets ports.now k nets.now }
    ensures { (name : List ℕ) → slice_get (names_in nets.now.table.now) number ≡ Some name → result ≡ is_faulty rule ports.now nets.now.table.now name }
{
    match rule {
        NameRule::TwoDrivers => is_marked(nets.drivers.all.twice.as_slice(), number),
        NameRule::Undriven => is_undriven(ports, k, nets, number),
        NameRule::ClockUse => is_misused_at(ports, k, nets, number),
    }
}

/// Whether the name of a number is read, and not driven.
fn is_undriven(ports: &Ports<'_>, k: u32, nets: &Nets<'_, '_>, number: usize) -> bool
    requires { AreNets ports.now k nets.now }
    ensures { (name : List ℕ) → slice_get (names_in nets.now.table.now) number ≡ Some name → result ≡ is_undriven ports.now nets.now.table.now name }
{
    let _ = ports;
    let _ = k;
    let read = is_marked(nets.reads.as_slice(), number);
    let driven = is_marked(nets.drivers.all.all.as_slice(), number);
    read && !driven
}

/// Whether the name of a number is a clock name that is not used as one.
fn is_misused_at(ports: &Ports<'_>, k: u32, nets: &Nets<'_, '_>, number: usize) -> bool
    requires reached { IsReached ports.now k }
    requires nets { AreNets ports.now k nets.now }
    ensures { (name : List ℕ) → slice_get (names_in nets.now.table.now) number ≡ Some name → result ≡ is_misused ports.now nets.now.table.now name }
{
    match nets.table.name_at(number) {
        Some(name) => is_misused(ports, k, nets, number, name),
        None => false,
    }
}

/// Whether a name of a model, with its number, is a clock name that is not used as one.
fn is_misused(ports: &Ports<'_>, k: u32, nets: &Nets<'_, '_>, number: usize, name: &[u8]) -> bool
    requires reached { IsReached ports.now k }
    requires nets { AreNets ports.now k nets.now }
    requires name { slice_get (names_in nets.now.table.now) number ≡ Some name.now }
    ensures { result ≡ is_misused ports.now nets.now.table.now name.now }
{
    let given = is_given(ports, k, name);
    let read = is_marked(nets.reads.as_slice(), number);
    let driven = is_marked(nets.drivers.inner.as_slice(), number);
    ports.survey().is_clock(k, name) && (!given || (read || driven))
}

/// Whether a name stands among the inputs or the clocks of a model.
fn is_given(ports: &Ports<'_>, k: u32, name: &[u8]) -> bool
    ensures { result ≡ (is_in ports.now Input k name.now || is_in ports.now Clock k name.now) }
{
    ports.has(Port::Input, k, name) || ports.has(Port::Clock, k, name)
}

//! `verify`: whether a certificate shows the throughput.

ghost use Rattle.std.specs.Prelude.{◌≡◌, ◌-◌, true, length, IfOk, IfErr};
ghost use Rattle.std.specs.List.{All};
ghost use Rattle.lid_cert.specs.Certificates.{ascends, IsInRange};
ghost use Rattle.lid_top_script.specs.Causes.{IsWant};
ghost use Rattle.lid_top_script.specs.Scripts.{IsVerdictOn, judging_script, cert_script, verify_script};
ghost use Rattle.lid_top_script.specs.Whole.{RunsOn, RunsAnywhere};
ghost use Rattle.lid_stations.specs.Markings.{marking};
ghost use Rattle.lid_stations.specs.Placements.{links_of};
ghost use Rattle.lid_rate_text.specs.Throughput.{verdict_text};

use lid_base::Shelf;
use lid_cert::{Cert, check_by_owners};
use lid_stations::marking;
use lid_top_script::{CertText, NetFiles, Stop, Wrapped, read_file, read_wrapped};
use std::alloc::Global;

/// Whether a certificate shows the throughput of a placement.
fn judge<'a>(alloc: Global, wrapped: &Wrapped, cert: &Cert) -> Result<bool, Stop<'a>>
    requires { IsInRange cert.now }
    ensures ok { IfOk result (IsVerdictOn (marking (links_of wrapped.now.system) wrapped.now.placement) cert.now) }
    ensures err { IfErr result IsWant }
{
    match marking(alloc, &wrapped.system, &wrapped.placement) {
        Ok(graph) => Ok(check_by_owners(alloc, &graph, cert)),
        Err(_) => Err(Stop::Memory),
    }
}

/// The number of the sink.
fn sink_of(wrapped: &Wrapped) -> u32
    ensures { result ≡ length wrapped.now.system.nodes - 1 }
{
    wrapped.system.nodes.len() as u32 - 1
}

/// The text of what a certificate shows, where the sink is this transition.
fn shown_text<'a>(alloc: Global, cert: &Cert, sink: u32) -> Result<Vec<u8>, Stop<'a>>
    requires { All (λ part. ascends part.nodes ≡ true) cert.now.parts }
    ensures ok { IfOk result (λ text. text.items ≡ verdict_text cert.now sink) }
    ensures err { IfErr result IsWant }
{
    match lid_rate_text::verdict_text(alloc, cert, sink) {
        Ok(text) => Ok(text),
        Err(_) => Err(Stop::Memory),
    }
}

/// What `verify` writes for a certificate.
fn judged_text<'a>(alloc: Global, wrapped: &Wrapped, cert: &Cert) -> Result<Vec<u8>, Stop<'a>>
    requires { IsInRange cert.now }
    ensures { RunsAnywhere (judging_script (links_of wrapped.now.system) wrapped.now.placement cert.now) result }
{
    match judge(alloc, wrapped, cert) {
        Ok(true) => shown_text(alloc, cert, sink_of(wrapped)),
        Ok(false) => Err(Stop::Denied),
        Err(stop) => Err(stop),
    }
}

/// What `verify` writes for a placement.
fn cert_text<'a, S: Shelf>(
    alloc: Global,
    shelf: &mut S,
    wrapped: &Wrapped,
    cert: &'a str,
) -> Result<Vec<u8>, Stop<'a>>
    ensures { RunsOn S.whole S.held S.fetches S.faults shelf.old shelf.new (cert_script (links_of wrapped.now.system) wrapped.now.placement cert.now) result }
{
    match read_file(alloc, shelf, cert, &CertText) {
        Ok(cert) => judged_text(alloc, wrapped, &cert),
        Err(stop) => Err(stop),
    }
}

/// What `verify` writes.
pub fn verify_text<'a, S: Shelf>(
    alloc: Global,
    shelf: &mut S,
    files: &NetFiles<'a>,
    cert: &'a str,
) -> Result<Vec<u8>, Stop<'a>>
    ensures { RunsOn S.whole S.held S.fetches S.faults shelf.old shelf.new
        (verify_script files.now.net.now cert.now files.now.stations.now files.now.root.now) result }
{
    match read_wrapped(alloc, shelf, files) {
        Ok(wrapped) => cert_text(alloc, shelf, &wrapped, cert),
        Err(stop) => Err(stop),
    }
}

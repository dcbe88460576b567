//! Placements and certificates that are read.

ghost use Rattle.std.specs.Prelude.{◌≡◌, ℕ, ◌≤◌, List, IfOk, IfErr};
ghost use Rattle.lid_cert.specs.declared.cert.Cert.{Cert};
ghost use Rattle.lid_cert.specs.Certificates.{IsInRange};
ghost use Rattle.lid_stations.specs.declared.placement.Placement.{Placement};
ghost use Rattle.lid_stations.specs.Placements.{links_of, Fits};
ghost use Rattle.lid_system.specs.Systems.{IsWellFormed as IsSystem};
ghost use Rattle.lid_top_script.specs.Scripts.{text_limit, stations_read, wires_read, cert_read};
ghost use Rattle.lid_top_script.specs.Causes.{GotPlacement, MissesPlacement};
ghost use Rattle.lid_top_script.specs.FetchSteps.{FetchesNamed};

use crate::fault::{Stop, cert_stop, place_stop};
use crate::reading::{FileText, read_file};
use lid_base::{Shelf, Text};
use lid_cert::Cert;
use lid_stations::{Placement, none};
use lid_stations_text::{place, read_stations};
use lid_system::System;
use std::alloc::Global;
use std::convert::AsStr;

/// The text of stations on the channels of a system.
#[derive(Clone, Copy)]
pub(crate) struct StationsText<'s> {
    /// The system.
    pub(crate) system: &'s System,
}

impl<'s> FileText for StationsText<'s> {
    type Read = Placement;

    ghost Told = { Placement };

    ghost told = { λ placement. placement };

    ghost limit = { text_limit };

    ghost reading = { λ text. stations_read (links_of text.system.now) };

    ghost is_ready = { λ text. IsSystem text.system.now };

    ghost is_sound = { λ text. Fits text.system.now };

    fn limit(&self) -> u32 {
        16_777_216
    }

    fn read<'a>(&self, alloc: Global, bytes: &[u8]) -> Result<Placement, Stop<'a>> {
        match read_stations(alloc, bytes, self.system) {
            Ok(placement) => Ok(placement),
            Err(fault) => Err(place_stop(fault)),
        }
    }
}

/// The placement of a job: that of the file of stations, where one is named, and otherwise the one
/// without relay stations.
pub(crate) fn read_placement<'a, S: Shelf>(
    alloc: Global,
    shelf: &mut S,
    system: &System,
    stations: &'a Option<Text>,
) -> Result<Placement, Stop<'a>>
    requires { IsSystem system.now }
    ensures ok { IfOk result (GotPlacement (S.held shelf.old) (links_of system.now) stations.now) }
    ensures fits { IfOk result (Fits system.now) }
    ensures err { IfErr result (MissesPlacement (S.held shelf.old) (links_of system.now) stations.now (S.faults shelf.old) (S.faults shelf.new)) }
    ensures fetched { FetchesNamed S.whole (S.held shelf.old) stations.now
        (S.fetches shelf.old) (S.fetches shelf.new) (S.faults shelf.old) (S.faults shelf.new) result }
    ensures kept { S.held shelf.new ≡ S.held shelf.old }
    ensures grows { (q : List ℕ) → S.faults shelf.old q ≤ S.faults shelf.new q }
{
    match stations {
        Some(file) => read_file(alloc, shelf, file.as_str(), &StationsText { system }),
        None => match none(alloc, system) {
            Ok(placement) => Ok(placement),
            Err(_) => Err(Stop::Memory),
        },
    }
}

/// The text of the wires of a system, on which relay stations are placed: one for each further length
/// that a signal reaches in a cycle.
#[derive(Clone, Copy)]
pub struct WiresText<'s> {
    /// The system.
    pub system: &'s System,
    /// How far a signal reaches in a cycle.
    pub reach: u64,
}

impl<'s> FileText for WiresText<'s> {
    type Read = Placement;

    ghost Told = { Placement };

    ghost told = { λ placement. placement };

    ghost limit = { text_limit };

    ghost reading = { λ text. wires_read text.reach (links_of text.system.now) };

    ghost is_ready = { λ text. IsSystem text.system.now × (1 ≤ text.reach) };

    ghost is_sound = { λ text. Fits text.system.now };

    fn limit(&self) -> u32 {
        16_777_216
    }

    fn read<'a>(&self, alloc: Global, bytes: &[u8]) -> Result<Placement, Stop<'a>> {
        match place(alloc, bytes, self.reach, self.system) {
            Ok(placement) => Ok(placement),
            Err(fault) => Err(place_stop(fault)),
        }
    }
}

/// The text of a certificate.
#[derive(Clone, Copy)]
pub struct CertText;

impl FileText for CertText {
    type Read = Cert;

    ghost Told = { Cert };

    ghost told = { λ cert. cert };

    ghost limit = { text_limit };

    ghost reading = { λ _. cert_read };

    ghost is_sound = { λ _. IsInRange };

    fn limit(&self) -> u32 {
        16_777_216
    }

    fn read<'a>(&self, alloc: Global, bytes: &[u8]) -> Result<Cert, Stop<'a>> {
        match lid_cert_text::read_cert(alloc, bytes) {
            Ok(cert) => Ok(cert),
            Err(fault) => Err(cert_stop(fault)),
        }
    }
}

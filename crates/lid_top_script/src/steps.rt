//! The steps that commands share: files that are fetched and read, and designs that are checked.

ghost use Rattle.std.specs.Prelude.{◌≡◌, Bool, List, IfOk, IfErr};
ghost use Rattle.lid_net_law.specs.Agreement.{IsSystemOf};
ghost use Rattle.lid_design.specs.declared.Design.{Design};
ghost use Rattle.lid_design.specs.WellFormed.{IsWellFormed};
ghost use Rattle.lid_system.specs.Systems.{IsWellFormed as IsSystem};
ghost use Rattle.lid_top_script.specs.Scripts.{net_limit, rows_limit, net_reading, vec_reading, AreInputRows, IsChecked, HasChannels, links};
ghost use Rattle.lid_stations.specs.Placements.{links_of};
ghost use Rattle.lid_top_script.specs.Causes.{FailsCheck, FailsNet};

use crate::fault::{Stop, blif_stop, check_stop, net_stop, rows_stop};
use crate::reading::FileText;
use lid_base::{Items, Name};
use lid_check::{Checked, check};
use lid_design::Design;
use lid_net::{build, find_channels};
use lid_system::{Channel, System};
use lid_texts_feed::read_packed;
use lid_texts_packed::PackedRows;
use std::alloc::Global;

/// The text of a netlist.
#[derive(Clone, Copy)]
pub struct NetText;

impl FileText for NetText {
    type Read = Design;

    ghost Told = { Design };

    ghost told = { λ design. design };

    ghost limit = { net_limit };

    ghost reading = { λ _. net_reading };

    ghost is_sound = { λ _. IsWellFormed };

    fn limit(&self) -> u32 {
        16_777_216
    }

    fn read<'a>(&self, alloc: Global, bytes: &[u8]) -> Result<Design, Stop<'a>> {
        match lid_blif::read(alloc, bytes) {
            Ok(design) => Ok(design),
            Err(fault) => Err(blif_stop(fault)),
        }
    }
}

/// The text of rows for the inputs of an accepted design. The rows that it stands for are packed.
#[derive(Clone, Copy)]
pub struct PackedText<'d> {
    /// The design.
    pub checked: &'d Checked,
}

impl<'d> FileText for PackedText<'d> {
    type Read = PackedRows;

    ghost Told = { List (List Bool) };

    ghost told = { λ packed. packed.rows };

    ghost limit = { rows_limit };

    ghost reading = { λ text. vec_reading text.checked.now };

    ghost is_sound = { λ text packed. AreInputRows text.checked.now packed.rows };

    fn limit(&self) -> u32 {
        67_108_864
    }

    fn read<'a>(&self, alloc: Global, bytes: &[u8]) -> Result<PackedRows, Stop<'a>> {
        let outs = self.checked.outputs().len() as u32;
        match read_packed(alloc, bytes, self.checked.inputs(), outs) {
            Ok(packed) => Ok(packed),
            Err(fault) => Err(rows_stop(fault)),
        }
    }
}

/// Accepts a design with its root.
pub fn accept<'a>(alloc: Global, design: Design, root: &Option<Name>) -> Result<Checked, Stop<'a>>
    requires { IsWellFormed design }
    ensures ok { IfOk result (IsChecked root.now design) }
    ensures err { IfErr result (FailsCheck root.now design) }
{
    match check(alloc, design, root.as_ref()) {
        Ok(checked) => Ok(checked),
        Err(fault) => Err(check_stop(fault)),
    }
}

/// Finds the channels of an accepted design.
pub(crate) fn channels_of<'a>(alloc: Global, checked: &Checked) -> Result<Items<Channel>, Stop<'a>>
    ensures ok { IfOk result (HasChannels checked.now) }
    ensures err { IfErr result (FailsNet checked.now) }
{
    match find_channels(alloc, checked) {
        Ok(channels) => Ok(channels),
        Err(fault) => Err(net_stop(fault)),
    }
}

/// Builds the system of an accepted design.
pub(crate) fn build_system<'a>(alloc: Global, checked: &Checked) -> Result<System, Stop<'a>>
    ensures formed { IfOk result IsSystem }
    ensures ok { IfOk result (λ system. HasChannels checked.now system.channels) }
    ensures system { IfOk result (IsSystemOf checked.now) }
    ensures links { IfOk result (λ system. links_of system ≡ links checked.now system.channels) }
    ensures err { IfErr result (FailsNet checked.now) }
{
    match build(alloc, checked) {
        Ok(system) => Ok(system),
        Err(fault) => Err(net_stop(fault)),
    }
}

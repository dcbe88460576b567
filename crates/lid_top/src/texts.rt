//! What jobs write that are told of a netlist and its stations, its wires or a certificate.

ghost use Rattle.std.specs.Prelude.{◌≡◌, true};
ghost use Rattle.lid_top_words.specs.Jobs.{IsJobInRange};
ghost use Rattle.lid_top_script.specs.Scripts.{script_of};
ghost use Rattle.lid_top_script.specs.Whole.{RunsOn};
ghost use Rattle.lid_top.specs.Families.{is_told, reads_netlist};

use lid_base::Shelf;
use lid_top_emit::emit_text;
use lid_top_script::{NetFiles, Stop};
use lid_top_whole::{Telling, place_text, telling_text, verify_text};
use lid_top_words::Job;
use std::alloc::Global;
use std::convert::AsStr;

/// What `rate`, `size` or `slack` writes.
pub(crate) fn told_text<'a, S: Shelf>(
    alloc: Global,
    shelf: &mut S,
    job: &'a Job,
) -> Result<Vec<u8>, Stop<'a>>
    requires { is_told job.now ≡ true }
    ensures { RunsOn S.whole S.held S.fetches S.faults shelf.old shelf.new (script_of job.now) result }
{
    match job {
        Job::Rate {
            net,
            stations,
            root,
        } => {
            let files = NetFiles::of(net, stations, root);
            telling_text(alloc, shelf, &files, Telling::Rate)
        }
        Job::Size {
            net,
            stations,
            root,
        } => {
            let files = NetFiles::of(net, stations, root);
            telling_text(alloc, shelf, &files, Telling::Size)
        }
        Job::Slack {
            net,
            stations,
            root,
        } => {
            let files = NetFiles::of(net, stations, root);
            telling_text(alloc, shelf, &files, Telling::Slack)
        }
        _ => unreachable!(),
    }
}

/// What `emit`, `place` or `verify` writes.
pub(crate) fn netlist_text<'a, S: Shelf>(
    alloc: Global,
    shelf: &mut S,
    job: &'a Job,
) -> Result<Vec<u8>, Stop<'a>>
    requires of { reads_netlist job.now ≡ true }
    requires sound { IsJobInRange job.now }
    ensures { RunsOn S.whole S.held S.fetches S.faults shelf.old shelf.new (script_of job.now) result }
{
    match job {
        Job::Emit {
            net,
            stations,
            root,
        } => emit_text(alloc, shelf, &NetFiles::of(net, stations, root)),
        Job::Place {
            net,
            wires,
            reach,
            root,
        } => place_text(alloc, shelf, net.as_str(), wires.as_str(), *reach, root),
        Job::Verify {
            net,
            cert,
            stations,
            root,
        } => {
            let files = NetFiles::of(net, stations, root);
            verify_text(alloc, shelf, &files, cert.as_str())
        }
        _ => unreachable!(),
    }
}

//! The ports of shells, marked among columns.

ghost use Rattle.std.specs.Prelude.{◌≡◌, ◌<◌, ◌≤◌, ◌+◌, length, map, Option, None};
ghost use Rattle.std.specs.List.{AllByRecursion};
ghost use Rattle.lid_net.specs.declared.origin.Origin.{Origin};
ghost use Rattle.lid_net.specs.Marks.{outs_of, MarksPorts, MarksAll};

use crate::origin::Origin;
use crate::ports::ShellPorts;

/// Marks the ports of each shell, the first of which is node 1. Where a column is more than one port,
/// the last counts.
pub(crate) fn mark_ports(ports: &[ShellPorts], origins: &mut [Option<Origin>])
    requires few { length ports.now ≤ 4096 }
    requires below { AllByRecursion (λ shell. AllByRecursion (λ k. k < length origins.old) (outs_of shell)) ports.now }
    requires narrow { AllByRecursion (λ shell. length (outs_of shell) ≤ 1048576) ports.now }
    ensures size { length origins.new ≡ length origins.old }
    ensures marks { MarksAll 1 (map outs_of ports.now) origins.old origins.new }
{
    for i in 0..ports.len() {
        mark_outs(i as u32 + 1, ports[i].outs.as_slice(), origins);
    }
}

/// Marks the ports of one node.
fn mark_outs(node: u32, outs: &[u32], origins: &mut [Option<Origin>])
    requires below { AllByRecursion (λ k. k < length origins.old) outs.now }
    requires narrow { length outs.now ≤ 1048576 }
    ensures size { length origins.new ≡ length origins.old }
    ensures marks { MarksPorts node outs.now origins.old origins.new }
{
    for place in 0..outs.len() {
        origins[outs[place] as usize] = Some(Origin::Port {
            node,
            place: place as u32,
        });
    }
}

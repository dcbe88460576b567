//! The pearls of a design, and the numbers of the columns of their inputs and outputs.

ghost use Rattle.std.specs.Prelude.{◌+◌, ◌<◌, ◌≤◌, length, IfOk};
ghost use Rattle.lid_design.specs.Loops.{pearls};
ghost use Rattle.lid_design.specs.Elaboration.{columns};
ghost use Rattle.lid_net.specs.PearlParts.{AreShellPorts, ArePortsOf, AreNumberedPorts, IsPearlOf};

use crate::ports::ShellPorts;
use lid_check::Checked;
use lid_check_parts::numbers_from;
use lid_net_law::pearls_stand_for_columns;
use lid_pearl::Pearl;
use std::alloc::{AllocError, Global};

/// The ports of all pearls, in order. No pearl is made.
pub(crate) fn collect_ports(alloc: Global, checked: &Checked) -> Result<Vec<ShellPorts>, AllocError>
    ensures { IfOk result (λ ports. ArePortsOf checked.now (length (columns checked.now)) ports.items) }
{
    let _ = checked.design();
    let count = checked.pearls();
    let mut ports = Vec::with_capacity(alloc, count as usize)?;
    for pearl in 0..count {
        ports.push(shell_ports(alloc, checked, pearl)?)?;
    }
    Ok(ports)
}

/// The ports of a pearl.
fn shell_ports(alloc: Global, checked: &Checked, pearl: u32) -> Result<ShellPorts, AllocError>
    requires { pearl < length (pearls checked.now) }
    ensures { IfOk result (AreShellPorts checked.now (length (columns checked.now)) pearl) }
{
    let _ = checked.network();
    let numbers = checked.part(pearl);
    number_ports(alloc, numbers)
}

/// The ports of a pearl whose columns have these numbers.
fn number_ports(alloc: Global, numbers: lid_check::PearlPart) -> Result<ShellPorts, AllocError>
    requires ports { numbers.inputs + numbers.outputs ≤ numbers.nets }
    requires few { numbers.start + numbers.nets ≤ 1048576 }
    ensures { IfOk result (AreNumberedPorts numbers) }
{
    let outputs = numbers.start + numbers.inputs;
    let ins = numbers_from(alloc, numbers.start, numbers.inputs)?;
    let outs = numbers_from(alloc, outputs, numbers.outputs)?;
    Ok(ShellPorts { ins, outs })
}

/// A pearl, by its number.
pub(crate) fn pearl_of(alloc: Global, checked: &Checked, pearl: u32) -> Result<Pearl, AllocError>
    requires { pearl < length (pearls checked.now) }
    ensures { IfOk result (IsPearlOf checked.now pearl) }
{
    pearls_stand_for_columns();
    let flat = checked.flat(alloc, pearl)?;
    Pearl::lay_out(alloc, flat)
}

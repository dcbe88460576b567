//! What is refused before a design is emitted.

ghost use Rattle.std.specs.Prelude.{◌≡◌, ◌⊎◌, None, Some, OnOk, IfErr};
ghost use Rattle.lid_emit_meaning.specs.declared.fault.EmitFault.TheVariants.{Memory};
ghost use Rattle.lid_emit_meaning.specs.Emitted.{fault_of, emit_fault};
ghost use Rattle.lid_emit_meaning.specs.Sizes.{size};
ghost use Rattle.lid_stations.specs.Placed.{links_in};

use crate::size::emitted_size;
use crate::taken::find_taken;
use lid_check::Checked;
use lid_emit_meaning::EmitFault;
use lid_stations::Placed;
use std::alloc::Global;

const GREATEST_SIZE: u64 = 16_384;

/// Refuses a design with a name that is taken, and else one whose size is too big.
///
/// # Errors
/// The fault. `Memory` where there is no memory.
pub(crate) fn refuse(alloc: Global, checked: &Checked, placed: &Placed<'_>) -> Result<(), EmitFault>
    ensures ok { OnOk result (emit_fault checked.now (links_in placed.now) placed.now.placement ≡ None) }
    ensures err { IfErr result (λ fault. (emit_fault checked.now (links_in placed.now) placed.now.placement ≡ Some fault) ⊎ (fault ≡ Memory)) }
{
    match find_taken(alloc, checked) {
        Ok(Some(name)) => Err(EmitFault::NameTaken { name }),
        Ok(None) => refuse_size(alloc, checked, placed),
        Err(_) => Err(EmitFault::Memory),
    }
}

/// Refuses a size over 16,384.
fn refuse_size(alloc: Global, checked: &Checked, placed: &Placed<'_>) -> Result<(), EmitFault>
    ensures ok { OnOk result (fault_of None (size checked.now (links_in placed.now) placed.now.placement) ≡ None) }
    ensures err { IfErr result (λ fault. (fault_of None (size checked.now (links_in placed.now) placed.now.placement) ≡ Some fault) ⊎ (fault ≡ Memory)) }
{
    match emitted_size(alloc, checked, placed) {
        Ok(count) => judge_size(count),
        Err(_) => Err(EmitFault::Memory),
    }
}

/// Whether a size is too big.
fn judge_size(count: u64) -> Result<(), EmitFault>
    ensures ok { OnOk result (fault_of None count ≡ None) }
    ensures err { IfErr result (λ fault. fault_of None count ≡ Some fault) }
{
    if count > GREATEST_SIZE {
        Err(EmitFault::TooBig { count })
    } else {
        Ok(())
    }
}

//! Tokens: bits of ports as one number.

ghost use Rattle.std.specs.Prelude.{◌≡◌, ◌≤◌, ◌<◌, ◌^◌, ◌+◌, ◌*◌, ℕ, Bool, if◌then◌else◌, List, Some, length, map, slice_get};
ghost use Rattle.std.specs.List.{AllByRecursion};
ghost use Rattle.lid_cover.specs.Masks.{packed};
ghost use Rattle.lid_strict_engine.specs.Rows.{bit_at};
ghost use Rattle.lid_strict_engine.specs.Truth.{is_set};

/// A token with one bit more, before the others.
fn with_bit(token: u32, bit: bool) -> u32
    requires { token < 2147483648 }
    ensures { result ≡ (if bit then 1 else 0) + 2 * token }
{
    if bit { 2 * token + 1 } else { 2 * token }
}

/// The token of some ports, where each port has a bit: bit j is that of the j-th port, and bits from
/// their number on are 0. It takes no memory.
pub fn pack(bits: &[bool], ports: &[u32]) -> u32
    requires few { length ports.now ≤ 31 }
    requires below { AllByRecursion (λ port. port < length bits.now) ports.now }
    ensures token { result ≡ packed (map (bit_at bits.now) ports.now) }
    ensures bits { (j port : ℕ) → slice_get ports.now j ≡ Some port → is_set result j ≡ bit_at bits.now port }
    ensures small { result < 2 ^ length ports.now }
{
    let mut token = 0u32;
    let mut left = ports.len();
    while left > 0 {
        left -= 1;
        token = with_bit(token, bits[ports[left] as usize]);
    }
    token
}

/// One bit of a token. It takes no memory.
pub fn unpack(token: u32, bit: u32) -> bool
    requires { bit < 31 }
    ensures bit { result ≡ is_set token bit }
    ensures packed { (bits : List Bool) → token ≡ packed bits → bit < length bits → result ≡ bit_at bits bit }
{
    (token >> bit) % 2 == 1
}

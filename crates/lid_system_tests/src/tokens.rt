//! Tokens: bits of ports as one number, and back. The expected tokens are worked out by hand.

ghost use Rattle.std.specs.Prelude.{◌<◌, IsTrue, length};
ghost use Rattle.std.specs.List.{All, AllByRecursion};

use lid_system::{pack, unpack};

/// Whether each port has a bit.
fn have_bits(bits: &[bool], ports: &[u32]) -> bool
    ensures { IsTrue result → AllByRecursion (λ port. port < length bits.now) ports.now }
{
    ports.iter().all(|port| (*port as usize) < bits.len())
}

/// Whether ports with such bits make a token, and the token gives the ports' bits back.
fn makes(bits: &[bool], ports: &[u32], token: u32) -> bool {
    if ports.len() > 31 || !have_bits(bits, ports) || pack(bits, ports) != token {
        return false;
    }
    for (bit, port) in ports.iter().enumerate() {
        if unpack(token, bit as u32) != bits[*port as usize] {
            return false;
        }
    }
    true
}

/// Bits, ports that have them, and the token of the ports.
static CASES: [(&[bool], &[u32], u32); 8] = [
    (&[], &[], 0),
    (&[true], &[], 0),
    (&[true], &[0], 1),
    (&[true, false], &[1], 0),
    (&[false, true], &[0, 1], 2),
    (&[true, false, true, true], &[3, 1, 0], 5),
    (&[false, false, true], &[2, 0, 2, 2], 13),
    (&[true, true, true, true, true], &[4, 3, 2, 1, 0], 31),
];

#[test]
fn bit_j_is_that_of_the_jth_port(rt: HostRuntime) {
    for (bits, ports, token) in &CASES {
        assert!(rt; makes(bits, ports, *token));
    }
}

/// The ports of a whole piece, in order.
static PORTS: [u32; 31] = [
    0, 1, 2, 3, 4, 5, 6, 7, 8, 9, 10, 11, 12, 13, 14, 15, 16, 17, 18, 19, 20, 21, 22, 23, 24, 25,
    26, 27, 28, 29, 30,
];

static BACK: [u32; 31] = [
    30, 29, 28, 27, 26, 25, 24, 23, 22, 21, 20, 19, 18, 17, 16, 15, 14, 13, 12, 11, 10, 9, 8, 7, 6,
    5, 4, 3, 2, 1, 0,
];

/// Whether 31 ports make a token, where one of them alone is set, or all are.
fn make_of_one(set: u32, all: bool, ports: &[u32], token: u32) -> bool {
    let mut bits = [all; 31];
    if set >= 31 {
        return false;
    }
    bits[set as usize] = true;
    makes(&bits, ports, token)
}

#[test]
fn tokens_have_31_bits(rt: HostRuntime) {
    assert!(rt; make_of_one(30, false, &PORTS, 1_073_741_824));
    assert!(rt; make_of_one(30, false, &BACK, 1));
    assert!(rt; make_of_one(0, false, &BACK, 1_073_741_824));
    assert!(rt; make_of_one(0, true, &PORTS, 2_147_483_647));
}

#[test]
fn bits_above_the_ports_are_none(rt: HostRuntime) {
    assert!(rt; !unpack(5, 1) && unpack(5, 2) && !unpack(5, 30));
    assert!(rt; unpack(1_073_741_824, 30) && !unpack(1_073_741_824, 29));
}

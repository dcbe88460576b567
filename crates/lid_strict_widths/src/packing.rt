//! The bits of one to six nets as one number, each width without a loop.

ghost use Rattle.std.specs.Prelude.{◌≡◌, ◌<◌, ℕ, length, map};
ghost use Rattle.std.specs.List.{AllByRecursion};
ghost use Rattle.lid_cover.specs.Masks.{packed};
ghost use Rattle.lid_strict_engine.specs.Rows.{bit_at};

/// Packs the bits of so many nets: bit j is that of the j-th.
pub(crate) trait Packing {
    ghost width: { ℕ };

    /// The bits of the nets as one number.
    fn pack(bits: &[bool], nets: &[u32]) -> u64
        requires long { length nets.now ≡ width }
        requires below { AllByRecursion (λ k. k < length bits.now) nets.now }
        ensures { result ≡ packed (map (bit_at bits.now) nets.now) };
}

/// One net.
pub(crate) struct One;

/// Two nets.
pub(crate) struct Two;

/// Three nets.
pub(crate) struct Three;

/// Four nets.
pub(crate) struct Four;

/// Five nets.
pub(crate) struct Five;

/// Six nets.
pub(crate) struct Six;

impl Packing for One {
    ghost width = { 1 };

    fn pack(bits: &[bool], nets: &[u32]) -> u64 {
        u64::from(bits[nets[0] as usize])
    }
}

impl Packing for Two {
    ghost width = { 2 };

    fn pack(bits: &[bool], nets: &[u32]) -> u64 {
        u64::from(bits[nets[0] as usize]) + 2 * u64::from(bits[nets[1] as usize])
    }
}

impl Packing for Three {
    ghost width = { 3 };

    fn pack(bits: &[bool], nets: &[u32]) -> u64 {
        Two::pack(bits, &nets[..2]) + 4 * u64::from(bits[nets[2] as usize])
    }
}

impl Packing for Four {
    ghost width = { 4 };

    fn pack(bits: &[bool], nets: &[u32]) -> u64 {
        Two::pack(bits, &nets[..2]) + 4 * Two::pack(bits, &nets[2..])
    }
}

impl Packing for Five {
    ghost width = { 5 };

    fn pack(bits: &[bool], nets: &[u32]) -> u64 {
        Four::pack(bits, &nets[..4]) + 16 * One::pack(bits, &nets[4..])
    }
}

impl Packing for Six {
    ghost width = { 6 };

    fn pack(bits: &[bool], nets: &[u32]) -> u64 {
        Four::pack(bits, &nets[..4]) + 16 * Two::pack(bits, &nets[4..])
    }
}

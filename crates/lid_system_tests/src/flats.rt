//! Pearls with numbered nets.

use lid_check::{Checked, check};
use lid_cover::Cover;
use lid_design::{Flat, FlatCover, FlatLatch};
use std::alloc::Global;

/// A latch: the net that it reads, the net that it drives, and its first bit.
type Held = (u32, u32, bool);

/// A cover: the net that it drives, the nets that it reads, whether its rows are those where it is 1, and
/// the rows as masks of care and of value.
type Made = (u32, &'static [u32], bool, &'static [(u64, u64)]);

/// The nets, inputs, outputs, latches and covers of a flat part.
type Part = (
    u32,
    &'static [u32],
    &'static [u32],
    &'static [Held],
    &'static [Made],
);

/// A ring of two registers that begin with different bits.
const RING: &[u8] = b".model ring\n.outputs y\n.subckt reg0 d=y q=w\n.subckt reg1 d=w q=y\n.end\n\
.model reg0\n.inputs d\n.outputs q\n.latch d q 0\n.end\n\
.model reg1\n.inputs d\n.outputs q\n.latch d q 1\n.end\n";

/// Two ways lead from a register to an exclusive or.
const DIAMOND: &[u8] =
    b".model dia\n.inputs x\n.outputs y\n.subckt reg d=x q=a\n.subckt xr a=a b=b q=y\n\
.subckt reg d=a q=b\n.end\n.model reg\n.inputs d\n.outputs q\n.latch d q 0\n.end\n\
.model xr\n.inputs a b\n.outputs q\n.names a b n\n10 1\n01 1\n.latch n q 0\n.end\n";

/// A stage with a feedback bit, as Yosys writes it; the root is the pearl.
const STAGE: &[u8] = b".model stage\n.inputs clk f a0 a1 a2\n.outputs q0 q1 q2\n\
.names a0 f d0\n10 1\n01 1\n.latch d0 q0 re clk 2\n.latch a1 q1 re clk 2\n.latch a2 q2 re clk 2\n.end\n";

/// An instance in a pearl, a clock, a constant, and a cover with rows for 0.
const NESTED: &[u8] =
    b".model top\n.inputs x z\n.outputs y w\n.subckt q d=x e=v\n.subckt p a=x c=z b=y\n\
.subckt m a=v b=w\n.end\n.model p\n.inputs a c\n.outputs b\n.subckt r i=a o=n\n.latch n b re c 1\n.end\n\
.model r\n.inputs i\n.outputs o\n.names i o\n0 1\n.end\n\
.model q\n.inputs d\n.outputs e\n.latch d e 2\n.end\n\
.model m\n.inputs a\n.outputs b\n.names s k b\n01 0\n-0 0\n.names k\n1\n.latch a s 3\n.end\n";

/// Netlists, a pearl of each, and its flat part.
static PARTS: [(&[u8], u32, Part); 8] = [
    (RING, 0, (2, &[0], &[1], &[(0, 1, false)], &[])),
    (RING, 1, (2, &[0], &[1], &[(0, 1, true)], &[])),
    (DIAMOND, 0, (2, &[0], &[1], &[(0, 1, false)], &[])),
    (
        DIAMOND,
        1,
        (
            4,
            &[0, 1],
            &[2],
            &[(3, 2, false)],
            &[(3, &[0, 1], true, &[(3, 1), (3, 2)])],
        ),
    ),
    (
        STAGE,
        0,
        (
            8,
            &[0, 1, 2, 3],
            &[4, 5, 6],
            &[(7, 4, false), (2, 5, false), (3, 6, false)],
            &[(7, &[1, 0], true, &[(3, 1), (3, 2)])],
        ),
    ),
    (NESTED, 0, (2, &[0], &[1], &[(0, 1, false)], &[])),
    (
        NESTED,
        1,
        (
            5,
            &[0],
            &[1],
            &[(2, 1, true)],
            &[
                (2, &[4], true, &[(1, 1)]),
                (3, &[0], true, &[(1, 1)]),
                (4, &[3], true, &[(1, 0)]),
            ],
        ),
    ),
    (
        NESTED,
        2,
        (
            4,
            &[0],
            &[1],
            &[(0, 2, false)],
            &[
                (1, &[2, 3], false, &[(3, 2), (2, 0)]),
                (3, &[], true, &[(0, 0)]),
            ],
        ),
    ),
];

/// Whether a cover has these rows.
fn has_rows(cover: &Cover, on: bool, rows: &[(u64, u64)]) -> bool {
    let cubes = cover.cubes.as_slice();
    if cover.on != on || cubes.len() != rows.len() {
        return false;
    }
    for i in 0..rows.len() {
        if cubes[i].care != rows[i].0 || cubes[i].value != rows[i].1 {
            return false;
        }
    }
    true
}

fn has_latch(latches: &[FlatLatch], held: &Held) -> bool {
    let (input, out, init) = *held;
    for latch in latches {
        if latch.input == input && latch.out == out && latch.init == init {
            return true;
        }
    }
    false
}

fn has_cover(covers: &[FlatCover], made: &Made) -> bool {
    let (out, ins, on, rows) = *made;
    for cover in covers {
        if cover.out == out && cover.ins.as_slice() == ins && has_rows(&cover.cover, on, rows) {
            return true;
        }
    }
    false
}

/// Whether a flat part has these latches and covers, and no others.
fn has_cells(flat: &Flat, latches: &[Held], covers: &[Made]) -> bool {
    for held in latches {
        if !has_latch(flat.latches.as_slice(), held) {
            return false;
        }
    }
    for made in covers {
        if !has_cover(flat.covers.as_slice(), made) {
            return false;
        }
    }
    flat.latches.len() == latches.len() && flat.covers.len() == covers.len()
}

/// Whether a flat part is this.
fn is_part(flat: &Flat, part: &Part) -> bool {
    let (nets, ins, outs, latches, covers) = *part;
    flat.nets == nets
        && flat.ins.as_slice() == ins
        && flat.outs.as_slice() == outs
        && has_cells(flat, latches, covers)
}

/// Whether the flat part of a pearl of an accepted design is this.
fn is_flat(alloc: Global, checked: &Checked, pearl: u32, part: &Part) -> bool {
    if pearl >= checked.pearls() {
        return false;
    }
    match checked.flat(alloc, pearl) {
        Ok(flat) => is_part(&flat, part),
        Err(_) => false,
    }
}

/// Whether a netlist is accepted, and the flat part of its pearl is this.
fn has_part(alloc: Global, net: &[u8], pearl: u32, part: &Part) -> bool {
    let Ok(design) = lid_blif::read(alloc, net) else {
        return false;
    };
    match check(alloc, design, None) {
        Ok(checked) => is_flat(alloc, &checked, pearl, part),
        Err(_) => false,
    }
}

#[test]
fn pearls_have_these_flat_parts(rt: HostRuntime) {
    for (net, pearl, part) in &PARTS {
        assert!(rt; has_part(rt.alloc(), net, *pearl, part));
    }
}

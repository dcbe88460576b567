//! Generated designs: their texts, their sizes, and that they are accepted. The first text was worked out by
//! hand; the draws of the others were told by `tools/dev/gen.py`.

ghost use Rattle.lid_design.specs.WellFormed.{IsWellFormed};

use lid_blifout::write;
use lid_check::check;
use lid_design::Design;
use lid_gen::{GenFault, make};
use lid_gen_laws::{generated_designs_are_accepted, generated_designs_are_writable};
use std::alloc::Global;

/// Whether the text of a design begins like this.
fn begins(alloc: Global, seed: u64, shells: u32, text: &str) -> bool {
    let Ok(design) = make(alloc, seed, shells) else {
        return false;
    };
    generated_designs_are_writable();
    let mut written = Vec::new(alloc);
    let Ok(()) = write(&design, &mut written) else {
        return false;
    };
    written.as_slice().starts_with(text.as_bytes())
}

/// The whole text of a design of one shell.
const SMALLEST: &str = ".model gen
.inputs x0 x1 x2 x3
.outputs y0 y1 y2 y3
.names x3 y0
1 1
.names n0_q y1
1 1
.names n0_r y2
1 1
.names n0_r y3
1 1
.subckt cel0 a=x0 b=x2 q=n0_q r=n0_r
.end
.model cel0
.inputs a b
.outputs q r
.names a b dq
10 1
01 1
.names b q dr
10 1
01 1
.latch dq q 0
.latch dr r 1
.end
.model cel1
.inputs a b
.outputs q r
.names a b dq
11 1
.names b q dr
10 1
01 1
.latch dq q 0
.latch dr r 1
.end
.model cel2
.inputs a b
.outputs q r
.names a b dq
1- 1
-1 1
.names b q dr
10 1
01 1
.latch dq q 0
.latch dr r 1
.end
.model cel3
.inputs a b
.outputs q r
.names a b dq
11 0
.names b q dr
10 1
01 1
.latch dq q 0
.latch dr r 1
.end
";

/// The root of a design of five shells.
const FIVE: &str = ".model gen
.inputs x0 x1 x2 x3
.outputs y0 y1 y2 y3
.names x2 y0
1 1
.names x2 y1
1 1
.names n4_r y2
1 1
.names n1_r y3
1 1
.subckt cel0 a=x0 b=n0_q q=n0_q r=n0_r
.subckt cel1 a=n0_q b=n2_q q=n1_q r=n1_r
.subckt cel1 a=n1_q b=x3 q=n2_q r=n2_r
.subckt cel3 a=n2_q b=n1_q q=n3_q r=n3_r
.subckt cel0 a=n3_q b=n4_q q=n4_q r=n4_r
.end
";

/// The root of a design of twelve shells.
const TWELVE: &str = ".model gen
.inputs x0 x1 x2 x3
.outputs y0 y1 y2 y3
.names n6_r y0
1 1
.names n9_q y1
1 1
.names n10_q y2
1 1
.names n4_q y3
1 1
.subckt cel2 a=x0 b=n10_q q=n0_q r=n0_r
.subckt cel0 a=n0_q b=n7_q q=n1_q r=n1_r
.subckt cel1 a=n1_q b=n0_r q=n2_q r=n2_r
.subckt cel3 a=n2_q b=n8_q q=n3_q r=n3_r
.subckt cel0 a=n3_q b=n9_q q=n4_q r=n4_r
.subckt cel3 a=n4_q b=x2 q=n5_q r=n5_r
.subckt cel2 a=n5_q b=n4_q q=n6_q r=n6_r
.subckt cel1 a=n6_q b=x0 q=n7_q r=n7_r
.subckt cel0 a=n7_q b=n0_r q=n8_q r=n8_r
.subckt cel1 a=n8_q b=n9_q q=n9_q r=n9_r
.subckt cel3 a=n9_q b=n0_q q=n10_q r=n10_r
.subckt cel3 a=n10_q b=n8_r q=n11_q r=n11_r
.end
";

/// Seeds, shells, and how the text begins: for the first the whole text.
static TEXTS: [(u64, u32, &str); 4] = [
    (2, 1, SMALLEST),
    (65539, 1, SMALLEST),
    (65539, 5, FIVE),
    (18_446_744_073_709_551_615, 12, TWELVE),
];

#[test]
fn designs_follow_their_draws(rt: HostRuntime) {
    for case in &TEXTS {
        assert!(rt;
            begins(rt.alloc(), case.0, case.1, case.2),
            "{} {}",
            case.0,
            case.1
        );
    }
}

/// Whether a design with so many shells is made.
fn is_made(alloc: Global, shells: u32) -> bool {
    match make(alloc, 7, shells) {
        Ok(design) => match design.models.as_slice() {
            [root, ..] => root.insts.len() == shells as usize,
            [] => false,
        },
        Err(_) => false,
    }
}

/// Whether so many shells are refused, with their number.
fn is_refused(alloc: Global, shells: u32) -> bool {
    match make(alloc, 7, shells) {
        Err(GenFault::Size { shells: told }) => told == shells,
        _ => false,
    }
}

/// Numbers of shells, and whether a design of as many is made.
static SIZES: [(u32, bool); 5] = [
    (0, false),
    (1, true),
    (2000, true),
    (2001, false),
    (4_294_967_295, false),
];

#[test]
fn there_are_1_to_2000_shells(rt: HostRuntime) {
    for case in &SIZES {
        assert!(rt; is_made(rt.alloc(), case.0) == case.1);
        assert!(rt; is_refused(rt.alloc(), case.0) != case.1);
    }
}

/// Whether a well-formed design is accepted.
fn is_accepted(alloc: Global, design: Design) -> bool
    requires { IsWellFormed design }
{
    match check(alloc, design, None) {
        Ok(_) => true,
        Err(_) => false,
    }
}

/// Whether the design of a seed is accepted.
fn is_sound(alloc: Global, seed: u64, shells: u32) -> bool {
    let Ok(design) = make(alloc, seed, shells) else {
        return false;
    };
    generated_designs_are_accepted();
    is_accepted(alloc, design)
}

#[test]
fn a_design_is_accepted(rt: HostRuntime) {
    assert!(rt; is_sound(rt.alloc(), 1, 30));
}

//! Netlists, and their systems.

ghost use Rattle.std.specs.Prelude.{IfSome};
ghost use Rattle.lid_system.specs.Systems.{IsWellFormed};

use lid_check::check;
use lid_system::System;
use std::alloc::Global;

/// Two registers in a ring, of which the second begins with 1 and is the output. Its channels, by their texts `u0 u1 0`,
/// `u1 u0 0` and `u1 out 0`, lead from node 1 to node 2, back, and from node 2 to node 3, the sink; node 0, the source,
/// has none.
pub const RING: &[u8] = b".model ring\n.outputs y\n.subckt reg0 d=y q=w\n\
.subckt reg1 d=w q=y\n.end\n.model reg0\n.inputs d\n.outputs q\n.latch d q 0\n.end\n\
.model reg1\n.inputs d\n.outputs q\n.latch d q 1\n.end\n";

/// One register, which begins with 0. Its channels lead from node 0, the source, to node 1, and from node 1 to node 2, the
/// sink.
pub const ONE: &[u8] = b".model one\n.inputs d\n.outputs q\n.latch d q 0\n.end\n";

/// Two ways from `u0` to `u1`, with the channels `in u0 0`, `u0 u1 0`, `u0 u2 0`, `u1 out 0` and `u2 u1 0`.
pub const DIAMOND: &[u8] =
    b".model dia\n.inputs x\n.outputs y\n.subckt reg d=x q=a\n.subckt xr a=a b=b q=y\n\
.subckt reg d=a q=b\n.end\n\
.model reg\n.inputs d\n.outputs q\n.latch d q 0\n.end\n\
.model xr\n.inputs a b\n.outputs q\n.names a b n\n10 1\n01 1\n.latch n q 0\n.end\n";

/// What `gen 209 --shells 2` makes, without the models that it does not use. Its channels are `in u0 0`, `in u1 0`,
/// `in out 0`, `u0 u1 0`, `u0 out 0` and `u1 u0 0`, and in a run of no rows the last draws give them 0, 2, 0, 0, 1 and 1
/// relay stations.
pub const MADE: &[u8] =
    b".model gen\n.inputs x0 x1 x2 x3\n.outputs y0 y1 y2 y3\n.names x3 y0\n1 1\n.names n0_q y1\n1 1\n\
.names n0_r y2\n1 1\n.names n0_q y3\n1 1\n.subckt cel1 a=x0 b=n1_r q=n0_q r=n0_r\n\
.subckt cel2 a=n0_q b=x0 q=n1_q r=n1_r\n.end\n\
.model cel1\n.inputs a b\n.outputs q r\n.names a b dq\n11 1\n.names b q dr\n10 1\n01 1\n\
.latch dq q 0\n.latch dr r 1\n.end\n\
.model cel2\n.inputs a b\n.outputs q r\n.names a b dq\n1- 1\n-1 1\n.names b q dr\n10 1\n01 1\n\
.latch dq q 0\n.latch dr r 1\n.end\n";

/// The system of a netlist. None where it is no netlist, where its design is not accepted, and for want of memory.
pub fn system_of(alloc: Global, netlist: &[u8]) -> Option<System>
    ensures { IfSome result IsWellFormed }
{
    let Ok(design) = lid_blif::read(alloc, netlist) else {
        return None;
    };
    let Ok(checked) = check(alloc, design, None) else {
        return None;
    };
    match lid_net::build(alloc, &checked) {
        Ok(system) => Some(system),
        Err(_) => None,
    }
}

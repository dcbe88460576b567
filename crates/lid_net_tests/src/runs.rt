//! Systems that are run row by row: each shell steps its pearl with what it reads of the tokens, and the
//! sink reads the rows of the strict run. Expected rows are worked out by hand.

ghost use Rattle.std.specs.Prelude.{◌≡◌, ◌<◌, IsTrue, length};
ghost use Rattle.std.specs.List.{AllByRecursion};
ghost use Rattle.lid_system.specs.Systems.{IsWellFormed};

use lid_base::Items;
use lid_check::{Checked, check};
use lid_net::{build, find_channels};
use lid_pearl::Pearl;
use lid_strict::strict;
use lid_system::{Channel, InBit, Node, System, pack, unpack};
use lid_texts::{Rows, print_rows, read_rows};
use std::alloc::{AllocError, Global};

/// A shell as it runs: its pearl, how many inputs that has, and the bits of its ports in the present row.
#[derive(Drop)]
struct Shell {
    pearl: Pearl,
    ins: usize,
    bits: Vec<bool>,
    ghost wide: { ins ≡ length pearl.flat.ins },
}

/// The shell of a pearl that has so many inputs, before its first row.
fn shell_of(alloc: Global, pearl: &Pearl, ins: usize) -> Result<Shell, AllocError>
    requires { ins ≡ length pearl.now.flat.ins }
{
    let pearl = pearl.copy()?;
    let mut bits = Vec::from_elem(alloc, false, pearl.outs())?;
    pearl.outputs(bits.as_mut_slice());
    Ok(Shell { pearl, ins, bits })
}

/// The shells of a system in order, before the first row.
fn shells_of(alloc: Global, system: &System) -> Result<Vec<Shell>, AllocError>
    requires { IsWellFormed system.now }
{
    let mut shells = Vec::new(alloc);
    for node in system.nodes.as_slice() {
        if let Node::Shell { pearl, ins } = node {
            shells.push(shell_of(alloc, pearl, ins.len())?)?;
        }
    }
    Ok(shells)
}

/// Goes on by a row. False where there is not one bit for each input.
fn step(shell: &mut Shell, inputs: &[bool]) -> bool {
    if inputs.len() != shell.ins || shell.bits.len() != shell.pearl.outs() {
        return false;
    }
    shell.pearl.step(inputs, shell.bits.as_mut_slice());
    true
}

/// Whether each port has a bit.
fn have_bits(bits: &[bool], ports: &[u32]) -> bool
    ensures { IsTrue result → AllByRecursion (λ port. port < length bits.now) ports.now }
{
    ports.iter().all(|port| (*port as usize) < bits.len())
}

/// The token of a channel's ports, where the node from which it comes has these bits.
fn packed(bits: &[bool], ports: &[u32]) -> Option<u32> {
    if ports.len() > 31 || !have_bits(bits, ports) {
        return None;
    }
    Some(pack(bits, ports))
}

/// A channel's token, where the source has the bits of a row.
fn token_of(channel: &Channel, row: &[bool], shells: &[Shell]) -> Option<u32> {
    let ports = channel.ports.as_slice();
    if channel.from == 0 {
        return packed(row, ports);
    }
    let place = channel.from as usize - 1;
    if place >= shells.len() {
        return None;
    }
    packed(shells[place].bits.as_slice(), ports)
}

/// The tokens of all channels, where the source has the bits of a row. None where one cannot be made.
fn tokens_of(
    alloc: Global,
    channels: &[Channel],
    row: &[bool],
    shells: &[Shell],
) -> Option<Vec<u32>> {
    let mut tokens = Vec::new(alloc);
    for channel in channels {
        tokens.push(token_of(channel, row, shells)?).ok()?;
    }
    Some(tokens)
}

/// The bit of an input.
fn bit_of(tokens: &[u32], input: InBit) -> Option<bool> {
    match input {
        InBit::Const(bit) => Some(bit),
        InBit::Port { chan, bit } => {
            if bit < 31 && (chan as usize) < tokens.len() {
                Some(unpack(tokens[chan as usize], bit))
            } else {
                None
            }
        }
    }
}

/// The bits of some inputs. None where one of them reads no token.
fn bits_of(alloc: Global, tokens: &[u32], ins: &[InBit]) -> Option<Vec<bool>> {
    let mut bits = Vec::new(alloc);
    for input in ins {
        bits.push(bit_of(tokens, *input)?).ok()?;
    }
    Some(bits)
}

/// What the sink reads of the tokens of a row, with which each shell goes on.
fn pass(alloc: Global, nodes: &[Node], tokens: &[u32], shells: &mut [Shell]) -> Option<Vec<bool>> {
    for i in 0..nodes.len() {
        match &nodes[i] {
            Node::Source { .. } => {}
            Node::Shell { ins, .. } => {
                let bits = bits_of(alloc, tokens, ins.as_slice())?;
                if i == 0 || i > shells.len() || !step(&mut shells[i - 1], bits.as_slice()) {
                    return None;
                }
            }
            Node::Sink { ins, .. } => return bits_of(alloc, tokens, ins.as_slice()),
        }
    }
    None
}

/// The output row of a row, after which each shell has gone on by it.
fn run_row(
    alloc: Global,
    system: &System,
    row: &[bool],
    shells: &mut [Shell],
) -> Option<Vec<bool>> {
    let tokens = tokens_of(alloc, system.channels.as_slice(), row, shells)?;
    pass(alloc, system.nodes.as_slice(), tokens.as_slice(), shells)
}

/// Whether a system gives some rows for others.
fn gives(alloc: Global, system: &System, rows: &[Items<bool>], outs: &[Items<bool>]) -> bool
    requires { IsWellFormed system.now }
{
    let Ok(mut shells) = shells_of(alloc, system) else {
        return false;
    };
    for t in 0..rows.len() {
        let Some(out) = run_row(alloc, system, rows[t].as_slice(), shells.as_mut_slice()) else {
            return false;
        };
        if t >= outs.len() || out.as_slice() != outs[t].as_slice() {
            return false;
        }
    }
    rows.len() == outs.len()
}

/// Whether these channels are found of an accepted design without its system.
fn finds(alloc: Global, checked: &Checked, wanted: &[Channel]) -> bool {
    match find_channels(alloc, checked) {
        Ok(channels) => channels.len() == wanted.len() && are_same(channels.as_slice(), wanted),
        Err(_) => false,
    }
}

/// Whether the channels of two lists are the same, as far as both go.
fn are_same(channels: &[Channel], wanted: &[Channel]) -> bool {
    channels.iter().zip(wanted).all(|(a, b)| {
        a.from == b.from
            && a.to == b.to
            && a.piece == b.piece
            && a.ports.as_slice() == b.ports.as_slice()
    })
}

/// Whether the system of an accepted design gives some rows for others.
fn builds(alloc: Global, checked: &Checked, rows: &Rows, outs: &Rows) -> bool {
    match build(alloc, checked) {
        Ok(system) => {
            finds(alloc, checked, system.channels.as_slice())
                && gives(alloc, &system, rows.bits.as_slice(), outs.bits.as_slice())
        }
        Err(_) => false,
    }
}

/// Whether rows have this text.
fn prints(alloc: Global, rows: &Rows, wanted: &[u8]) -> bool {
    let mut text = Vec::new(alloc);
    print_rows(rows, &mut text).is_ok() && text.as_slice() == wanted
}

/// Whether the strict run and the system of an accepted design give some rows for those of a text.
fn runs(alloc: Global, checked: &Checked, given: &[u8], wanted: &[u8]) -> bool {
    let Ok(rows) = read_rows(alloc, given, checked.inputs(), 1) else {
        return false;
    };
    match strict(alloc, checked, &rows) {
        Ok(outs) => prints(alloc, &outs, wanted) && builds(alloc, checked, &rows, &outs),
        Err(_) => false,
    }
}

/// Whether a netlist is accepted, and gives some rows for those of a text.
pub fn is_run(alloc: Global, net: &[u8], given: &[u8], wanted: &[u8]) -> bool {
    let Ok(design) = lid_blif::read(alloc, net) else {
        return false;
    };
    match check(alloc, design, None) {
        Ok(checked) => runs(alloc, &checked, given, wanted),
        Err(_) => false,
    }
}

/// Netlists, their rows and their outputs.
static RUNS: [(&[u8], &[u8], &[u8]); 5] = [
    // a register that is the root
    (
        b".model reg\n.inputs d\n.outputs q\n.latch d q 1\n.end\n",
        b"d\n0\n1\n1\n0\n1\n0\n",
        b"q\n1\n0\n1\n1\n0\n1\n",
    ),
    // a ring of two registers
    (
        b".model ring\n.outputs y\n.subckt reg0 d=y q=w\n.subckt reg1 d=w q=y\n.end\n\
.model reg0\n.inputs d\n.outputs q\n.latch d q 0\n.end\n\
.model reg1\n.inputs d\n.outputs q\n.latch d q 1\n.end\n",
        b"-\n-\n-\n-\n-\n-\n-\n",
        b"y\n1\n0\n1\n0\n1\n0\n",
    ),
    // two ways from a register to an exclusive or
    (
        b".model dia\n.inputs x\n.outputs y\n.subckt reg d=x q=a\n.subckt xr a=a b=b q=y\n\
.subckt reg d=a q=b\n.end\n.model reg\n.inputs d\n.outputs q\n.latch d q 0\n.end\n\
.model xr\n.inputs a b\n.outputs q\n.names a b n\n10 1\n01 1\n.latch n q 0\n.end\n",
        b"x\n1\n0\n1\n1\n0\n0\n0\n",
        b"y\n0\n0\n1\n1\n1\n0\n1\n",
    ),
    // two readers of one port, one of them behind a buffer, and a constant
    (
        b".model t\n.inputs x\n.outputs p q c k\n.subckt reg d=x q=a\n.names a c\n1 1\n.names k\n1\n\
.subckt xr a=a b=k q=p\n.subckt reg d=c q=q\n.end\n\
.model reg\n.inputs d\n.outputs q\n.latch d q 0\n.end\n\
.model xr\n.inputs a b\n.outputs q\n.names a b n\n10 1\n01 1\n.latch n q 0\n.end\n",
        b"x\n1\n0\n0\n1\n1\n0\n1\n",
        b"p q c k\n0001\n1011\n0101\n1001\n1011\n0111\n0101\n",
    ),
    // an instance in a pearl, a clock, and covers with rows for 0
    (
        b".model top\n.inputs x z\n.outputs y w\n.subckt q d=x e=v\n.subckt p a=x c=z b=y\n\
.subckt m a=v b=w\n.end\n.model p\n.inputs a c\n.outputs b\n.subckt r i=a o=n\n\
.latch n b re c 1\n.end\n.model r\n.inputs i\n.outputs o\n.names i o\n0 1\n.end\n\
.model q\n.inputs d\n.outputs e\n.latch d e 2\n.end\n\
.model m\n.inputs a\n.outputs b\n.names s k b\n01 0\n-0 0\n.names k\n1\n.latch a s 3\n.end\n",
        b"x\n1\n0\n1\n1\n0\n0\n",
        b"y w\n10\n00\n11\n00\n01\n11\n",
    ),
];

#[test]
fn systems_give_the_rows_of_strict_runs(rt: HostRuntime) {
    for (net, given, wanted) in &RUNS {
        assert!(rt; is_run(rt.alloc(), net, given, wanted));
    }
}

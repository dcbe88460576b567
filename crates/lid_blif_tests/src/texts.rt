//! Texts, and the canonical texts of the designs that they stand for.

ghost use Rattle.std.specs.Prelude.{◌≡◌, ◌∷◌, [], IfOk, MatchResult};
ghost use Rattle.lid_blif_tests.specs.Examples.{lone_design, lone_model};
ghost use Rattle.lid_blifout.specs.Writable.{IsWritable};

use lid_base::{Items, Name, copy_name};
use lid_blif::{BlifFault, read};
use lid_blifout::{append_models, write};
use lid_design::{Bind, Design, Model};
use std::alloc::{AllocError, Global};

/// What the design of a text is written as; none where it stands for none. The root is the first
/// model.
fn rewritten(alloc: Global, text: &[u8]) -> Option<Vec<u8>> {
    let Ok(design) = read(alloc, text) else {
        return None;
    };
    if design.root != 0 {
        return None;
    }
    let mut written = Vec::new(alloc);
    match append_models(design.models.as_slice(), &mut written) {
        Ok(()) => Some(written),
        Err(_) => None,
    }
}

fn is_rewritten(alloc: Global, text: &str, canonical: &str) -> bool {
    match rewritten(alloc, text.as_bytes()) {
        Some(written) => written.as_slice() == canonical.as_bytes(),
        None => false,
    }
}

/// Texts, and what their designs are written as.
static TEXTS: [(&str, &str); 15] = [
    (
        ".model m\n.inputs a\n.latch a q\n.end",
        ".model m\n.inputs a\n.latch a q 3\n.end\n",
    ),
    (
        ".model m\n.inputs a\n.latch a q re NIL\n",
        ".model m\n.inputs a\n.latch a q re NIL 3\n.end\n",
    ),
    (
        ".model m\n.latch a q fe clk 2\n.latch b r 1",
        ".model m\n.latch a q fe clk 2\n.latch b r 1\n.end\n",
    ),
    (
        ".model m\n.latch a q fe clk 2\n.latch b r 1\n.latch c s re clk 0",
        ".model m\n.latch a q fe clk 2\n.latch b r 1\n.latch c s re clk 0\n.end\n",
    ),
    (
        ".model m\n.names $false\n.names $true\n1\n.names $undef\n",
        ".model m\n.names $false\n.names $true\n1\n.names $undef\n.end\n",
    ),
    (
        ".model \\top.a:b[3]\\c=d\n.inputs \\x[0] \\y\\z:1\n",
        ".model \\top.a:b[3]\\c=d\n.inputs \\x[0] \\y\\z:1\n.end\n",
    ),
    (
        "# Yosys\n\n.model m # top\n.inputs a \\\n b\\\nc\n",
        ".model m\n.inputs a b c\n.end\n",
    ),
    (
        ".model m\n.clock c\n.inputs a\n.clock d e\n.outputs z\n.inputs b\n.model n\n.clock f\n.end it\n",
        ".model m\n.inputs a b\n.outputs z\n.clock c d e\n.end\n.model n\n.clock f\n.end\n",
    ),
    (
        ".model m # top\n.clock c\n.outputs z\n.inputs a \\\n b\n.clock d\n.inputs e\n",
        ".model m\n.inputs a b e\n.outputs z\n.clock c d\n.end\n",
    ),
    (
        ".model m\n.names a b c d q\n1-0- 0\n-1-1 0\n.names p\n0\n.names x y\n0 1\n",
        ".model m\n.names a b c d q\n1-0- 0\n-1-1 0\n.names p\n0\n.names x y\n0 1\n.end\n",
    ),
    (
        ".model m\n.names a b q\n1- 0\n01 0\n.names p\n0\n.names x y\n.names $true\n1\n.names $false\n",
        ".model m\n.names a b q\n1- 0\n01 0\n.names p\n0\n.names x y\n.names $true\n1\n.names $false\n.end\n",
    ),
    (
        ".model m\n.subckt r d=a=b q[0]==\n.names a b\n1 1\n.subckt s\n.end\n.model r\n",
        ".model m\n.names a b\n1 1\n.subckt r d=a=b q[0]==\n.subckt s\n.end\n.model r\n.end\n",
    ),
    (
        ".model m\n.subckt r d=a=b \\q[0]==\n.names a b\n1 1\n.subckt s\n.end\n.model r\n",
        ".model m\n.names a b\n1 1\n.subckt r d=a=b \\q[0]==\n.subckt s\n.end\n.model r\n.end\n",
    ),
    (PIPELINE, PIPELINE_WRITTEN),
    (PIPELINE_WRITTEN, PIPELINE_WRITTEN),
];

/// Netlists that are written as they stand.
static NETLISTS: [&str; 5] = [REGISTER, WIDE, RING, TWO_WAYS, STAGE];

#[test]
fn designs_are_written_in_one_form(rt: HostRuntime) {
    for (text, canonical) in &TEXTS {
        assert!(rt; is_rewritten(rt.alloc(), text, canonical), "{text}");
    }
    for netlist in &NETLISTS {
        assert!(rt; is_rewritten(rt.alloc(), netlist, netlist), "{netlist}");
    }
}

/// Whether a binding has this formal and this actual.
fn is_bind(bind: &Bind, formal: &str, actual: &str) -> bool {
    bind.formal.as_slice() == formal.as_bytes() && bind.actual.as_slice() == actual.as_bytes()
}

/// Whether the first instance of the first model binds two nets in this way.
fn has_binds(design: &Design, first: (&str, &str), second: (&str, &str)) -> bool {
    let models = design.models.as_slice();
    if models.is_empty() {
        return false;
    }
    let insts = models[0].insts.as_slice();
    if insts.is_empty() {
        return false;
    }
    let binds = insts[0].binds.as_slice();
    binds.len() == 2
        && is_bind(&binds[0], first.0, first.1)
        && is_bind(&binds[1], second.0, second.1)
}

#[test]
fn bindings_split_at_their_first_equals_sign(rt: HostRuntime) {
    let text = b".model m\n.subckt r d=a=b q[0]==\n.names a b\n1 1\n.subckt s\n.end\n.model r\n";
    match read(rt.alloc(), text) {
        Ok(design) => assert!(rt; has_binds(&design, ("d", "a=b"), ("q[0]", "="))),
        Err(_) => assert!(rt; false, "no design"),
    }
}

fn name(alloc: Global, letter: u8) -> Result<Name, AllocError>
    ensures { IfOk result (λ name. name ≡ letter ∷ []) }
{
    copy_name(alloc, &[letter])
}

/// A model without anything in it.
#[tactic(auto, unfolding(crate::specs::Examples::lone_model))]
fn lone_model(alloc: Global) -> Result<Model, AllocError>
    ensures { IfOk result (λ m. m ≡ lone_model) }
{
    let name = name(alloc, b'm')?;
    Ok(Model {
        name,
        inputs: Items::from_vec(Vec::new(alloc)),
        outputs: Items::from_vec(Vec::new(alloc)),
        clocks: Items::from_vec(Vec::new(alloc)),
        cells: Items::from_vec(Vec::new(alloc)),
        insts: Items::from_vec(Vec::new(alloc)),
    })
}

/// A design of that model.
#[tactic(auto, unfolding(crate::specs::Examples::lone_design))]
fn lone(alloc: Global) -> Result<Design, AllocError>
    ensures { IfOk result (λ d. d ≡ lone_design) }
{
    let model = lone_model(alloc)?;
    let mut models = Vec::new(alloc);
    models.push(model)?;
    Ok(Design {
        models: Items::from_vec(models),
        root: 0,
    })
}

/// What is written into an empty buffer is read as the design, where there is memory.
fn read_written(alloc: Global, design: &Design) -> Result<Design, BlifFault>
    requires { IsWritable design.now }
    ensures { MatchResult result (λ d. d ≡ design.now) (λ e. e ≡ BlifFault.Memory) }
{
    let mut text = Vec::new(alloc);
    let Ok(()) = write(design, &mut text) else {
        return Err(BlifFault::Memory);
    };
    read(alloc, text.as_slice())
}

/// The text `#` in a line, with that design behind it.
#[tactic(auto, using(crate::proofs::Examples::lone_writable))]
fn lone_behind_text(alloc: Global) -> Result<Vec<u8>, AllocError> {
    let design = lone(alloc)?;
    let mut text = Vec::from_slice(alloc, b"#\n")?;
    write(&design, &mut text)?;
    Ok(text)
}

fn is_lone_written(alloc: Global) -> bool {
    match lone_behind_text(alloc) {
        Ok(text) => text.as_slice() == b"#\n.model m\n.end\n".as_slice(),
        Err(_) => false,
    }
}

/// How many models that design has once it is written and read.
#[tactic(auto, using(crate::proofs::Examples::lone_writable))]
fn models_read_back(alloc: Global) -> usize {
    let Ok(design) = lone(alloc) else {
        return 0;
    };
    match read_written(alloc, &design) {
        Ok(again) => again.models.len(),
        Err(_) => 0,
    }
}

#[test]
fn a_lone_model_is_written_behind_a_text(rt: HostRuntime) {
    assert!(rt; is_lone_written(rt.alloc()));
    assert_eq!(rt; models_read_back(rt.alloc()), 1);
}

const REGISTER: &str = ".model one
.inputs d
.outputs q
.latch d q 0
.end
";

const WIDE: &str = ".model top
.outputs z
.subckt a q0=n0 q1=n1 q2=n2 q3=n3 q4=n4 q5=n5 q6=n6 q7=n7 q8=n8 q9=n9 q10=n10 q11=n11 q12=n12 q13=n13 q14=n14 q15=n15 q16=n16 q17=n17 q18=n18 q19=n19 q20=n20 q21=n21 q22=n22 q23=n23 q24=n24 q25=n25 q26=n26 q27=n27 q28=n28 q29=n29 q30=n30 q31=n31 q32=n32
.subckt b i0=n0 i1=n1 i2=n2 i3=n3 i4=n4 i5=n5 i6=n6 i7=n7 i8=n8 i9=n9 i10=n10 i11=n11 i12=n12 i13=n13 i14=n14 i15=n15 i16=n16 i17=n17 i18=n18 i19=n19 i20=n20 i21=n21 i22=n22 i23=n23 i24=n24 i25=n25 i26=n26 i27=n27 i28=n28 i29=n29 i30=n30 i31=n31 i32=n32 z=z
.end
.model a
.outputs q0 q1 q2 q3 q4 q5 q6 q7 q8 q9 q10 q11 q12 q13 q14 q15 q16 q17 q18 q19 q20 q21 q22 q23 q24 q25 q26 q27 q28 q29 q30 q31 q32
.latch q0 q0 0
.latch q1 q1 0
.latch q2 q2 0
.latch q3 q3 0
.latch q4 q4 0
.latch q5 q5 0
.latch q6 q6 0
.latch q7 q7 0
.latch q8 q8 0
.latch q9 q9 0
.latch q10 q10 0
.latch q11 q11 0
.latch q12 q12 0
.latch q13 q13 0
.latch q14 q14 0
.latch q15 q15 0
.latch q16 q16 0
.latch q17 q17 0
.latch q18 q18 0
.latch q19 q19 0
.latch q20 q20 0
.latch q21 q21 0
.latch q22 q22 0
.latch q23 q23 0
.latch q24 q24 0
.latch q25 q25 0
.latch q26 q26 0
.latch q27 q27 0
.latch q28 q28 0
.latch q29 q29 0
.latch q30 q30 0
.latch q31 q31 0
.latch q32 q32 0
.end
.model b
.inputs i0 i1 i2 i3 i4 i5 i6 i7 i8 i9 i10 i11 i12 i13 i14 i15 i16 i17 i18 i19 i20 i21 i22 i23 i24 i25 i26 i27 i28 i29 i30 i31 i32
.outputs z
.latch i0 z 0
.end
";

const RING: &str = ".model ring
.outputs y
.subckt reg0 d=y q=w
.subckt reg1 d=w q=y
.end
.model reg0
.inputs d
.outputs q
.latch d q 0
.end
.model reg1
.inputs d
.outputs q
.latch d q 1
.end
";

const TWO_WAYS: &str = ".model dia
.inputs x
.outputs y
.subckt reg d=x q=a
.subckt xr a=a b=b q=y
.subckt reg d=a q=b
.end
.model reg
.inputs d
.outputs q
.latch d q 0
.end
.model xr
.inputs a b
.outputs q
.names a b n
10 1
01 1
.latch n q 0
.end
";

const PIPELINE: &str = "# Generated by Yosys
.model pipe
.inputs clk x0 x1 x2 x3 x4 x5 x6 x7
.outputs y0 y1 y2 y3 y4 y5 y6 y7
.names $false
.names $true
1
.names $undef
.subckt stage clk=clk f=y0 a0=x0 a1=x1 a2=x2 a3=x3 a4=x4 a5=x5 \\
 a6=x6 a7=x7 q0=m0 q1=m1 q2=m2 q3=m3 q4=m4 q5=m5 q6=m6 q7=m7
.subckt stage clk=clk f=$false a0=m0 a1=m1 a2=m2 a3=m3 a4=m4 a5=m5 \\
 a6=m6 a7=m7 q0=n0 q1=n1 q2=n2 q3=n3 q4=n4 q5=n5 q6=n6 q7=n7
.subckt stage clk=clk f=$false a0=n0 a1=n1 a2=n2 a3=n3 a4=n4 a5=n5 \\
 a6=n6 a7=n7 q0=o0 q1=o1 q2=o2 q3=o3 q4=o4 q5=o5 q6=o6 q7=o7
.subckt stage clk=clk f=$false a0=o0 a1=o1 a2=o2 a3=o3 a4=o4 a5=o5 \\
 a6=o6 a7=o7 q0=y0 q1=y1 q2=y2 q3=y3 q4=y4 q5=y5 q6=y6 q7=y7
.end
";

const PIPELINE_WRITTEN: &str = ".model pipe
.inputs clk x0 x1 x2 x3 x4 x5 x6 x7
.outputs y0 y1 y2 y3 y4 y5 y6 y7
.names $false
.names $true
1
.names $undef
.subckt stage clk=clk f=y0 a0=x0 a1=x1 a2=x2 a3=x3 a4=x4 a5=x5 a6=x6 a7=x7 q0=m0 q1=m1 q2=m2 q3=m3 q4=m4 q5=m5 q6=m6 q7=m7
.subckt stage clk=clk f=$false a0=m0 a1=m1 a2=m2 a3=m3 a4=m4 a5=m5 a6=m6 a7=m7 q0=n0 q1=n1 q2=n2 q3=n3 q4=n4 q5=n5 q6=n6 q7=n7
.subckt stage clk=clk f=$false a0=n0 a1=n1 a2=n2 a3=n3 a4=n4 a5=n5 a6=n6 a7=n7 q0=o0 q1=o1 q2=o2 q3=o3 q4=o4 q5=o5 q6=o6 q7=o7
.subckt stage clk=clk f=$false a0=o0 a1=o1 a2=o2 a3=o3 a4=o4 a5=o5 a6=o6 a7=o7 q0=y0 q1=y1 q2=y2 q3=y3 q4=y4 q5=y5 q6=y6 q7=y7
.end
";

const STAGE: &str = ".model stage
.inputs clk f a0 a1 a2 a3 a4 a5 a6 a7
.outputs q0 q1 q2 q3 q4 q5 q6 q7
.names a0 f d0
10 1
01 1
.latch d0 q0 re clk 2
.latch a1 q1 re clk 2
.latch a2 q2 re clk 2
.latch a3 q3 re clk 2
.latch a4 q4 re clk 2
.latch a5 q5 re clk 2
.latch a6 q6 re clk 2
.latch a7 q7 re clk 2
.end
";

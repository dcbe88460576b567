//! What is counted in a model and in all instances in it.

ghost use Rattle.lid_design.specs.WellFormed.{IsWellFormed};

use crate::told::design_of;
use lid_check_hierarchy::Survey;
use lid_check_models::{Measure, check_models, count_all, count_model};
use lid_design::Design;
use std::alloc::{AllocError, Global};
use std::test::Fail;

/// `top` has one instance of `mid`, which has logic and two instances of `part`.
const NET: &str = ".model top\n.inputs ck x y\n.outputs z\n.subckt mid a=x b=y q=z c=ck\n.end\n\
.model mid\n.inputs a b c\n.outputs q\n.subckt part i=a o=u c=c\n.subckt part i=b o=v c=c\n\
.names u v q\n11 1\n00 1\n.end\n\
.model part\n.inputs i c\n.outputs o\n.latch i h re c 2\n.latch h o re c 1\n.names h i g\n10 1\n01 1\n\
.names k\n1\n.end\n";

/// What is counted: in `top`, in `mid`, in `part`, and over all instances of the design.
static COUNTS: [(&str, Measure, [u64; 4]); 8] = [
    ("depth", Measure::Depth, [2, 1, 0, 2]),
    ("cells", Measure::Cells, [12, 11, 4, 12]),
    // three of `top`, five of `mid`, and five of `part` twice
    ("nets", Measure::Nets, [18, 15, 5, 18]),
    ("latches", Measure::Latches, [4, 4, 2, 4]),
    ("defaulted", Measure::Defaulted, [2, 2, 1, 2]),
    ("covers", Measure::Covers, [5, 5, 2, 5]),
    ("inputs of covers", Measure::CoverInputs, [6, 6, 2, 6]),
    ("rows of covers", Measure::CoverRows, [8, 8, 3, 8]),
];

/// What is counted in each reached model, in the order of the text, and over all instances.
fn counted(alloc: Global, survey: &Survey<'_>, what: Measure) -> Result<Vec<u64>, AllocError> {
    let mut counts = Vec::new(alloc);
    for model in survey.reached() {
        counts.push(count_model(alloc, survey, what, *model)?)?;
    }
    counts.push(count_all(alloc, survey, what)?)?;
    Ok(counts)
}

/// Whether these counts are found in a design that meets the conditions on models.
fn has_counts(
    alloc: Global,
    design: &Design,
    what: Measure,
    wanted: &[u64],
) -> Result<bool, AllocError>
    requires { IsWellFormed design.now }
{
    let Ok(survey) = check_models(alloc, design) else {
        return Ok(false);
    };
    let counts = counted(alloc, &survey, what)?;
    Ok(counts.as_slice() == wanted)
}

#[test]
fn counts_go_over_all_instances(rt: HostRuntime) -> Result<(), Fail> {
    let design = design_of(&rt, rt.alloc(), NET);
    for (word, what, wanted) in &COUNTS {
        let counted = has_counts(rt.alloc(), &design, *what, wanted.as_slice())?;
        assert!(rt; counted, "{word}");
    }
    Ok(())
}

//! Shells of one model, whose pearls have their layout in common.

ghost use Rattle.std.specs.Prelude.{◌≡◌};

use lid_check_names::NameSet;
use lid_design::Design;
use lid_system::Node;
use std::alloc::{AllocError, Global};

/// The models that pearls had so far, and for each of them the node of its first pearl.
#[derive(Drop)]
pub(crate) struct FirstShells<'d> {
    /// The name of the model of each instance of the root.
    models: Vec<&'d [u8]>,
    met: NameSet<'d>,
    nodes: Vec<usize>,
}

impl<'d> FirstShells<'d> {
    /// No shells yet.
    pub fn new(alloc: Global, design: &'d Design) -> Result<FirstShells<'d>, AllocError> {
        let models = models_of(alloc, design)?;
        let met = NameSet::for_names(alloc, models.as_slice());
        Ok(FirstShells {
            models,
            met,
            nodes: Vec::new(alloc),
        })
    }

    /// Notes that a pearl stands at a node, and answers the first node whose pearl has the same model. No clause
    /// says so, since only memory hangs on it.
    pub fn enter(&mut self, pearl: usize, node: usize) -> Result<usize, AllocError> {
        let Some(model) = self.models.as_slice().get(pearl) else {
            return Ok(node);
        };
        let place = self.met.enter(model)?;
        if place == self.nodes.len() {
            self.nodes.push(node)?;
        }
        Ok(self.nodes.as_slice().get(place).copied().unwrap_or(node))
    }
}

/// The names of the models of the instances of the root.
fn models_of<'d>(alloc: Global, design: &'d Design) -> Result<Vec<&'d [u8]>, AllocError> {
    let mut models = Vec::new(alloc);
    if let Some(root) = design.models.as_slice().get(design.root as usize) {
        for inst in root.insts.as_slice() {
            models.push(inst.model.as_slice())?;
        }
    }
    Ok(models)
}

/// A shell, whose pearl gets the layout of the one of another node in place of its own where the two are equal.
pub(crate) fn with_layout_at(nodes: &[Node], place: usize, shell: Node) -> Node
    ensures { result ≡ shell }
{
    let Some(Node::Shell { pearl: first, .. }) = nodes.get(place) else {
        return shell;
    };
    match shell {
        Node::Shell { pearl, ins } => Node::Shell {
            pearl: pearl.with_layout_of(first),
            ins,
        },
        other => other,
    }
}

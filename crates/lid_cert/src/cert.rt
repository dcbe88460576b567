//! Certificates as values.

use lid_base::Items;

/// A certificate of the ratio of each component of a marked graph.
#[derive(Drop)]
pub struct Cert {
    /// One part for each component, in the order of the least transition.
    pub parts: Items<Part>,
}

/// What is shown of one component. `lag`, `lead`, `via` and `depth` are in the order of `nodes`.
#[derive(Drop)]
pub struct Part {
    /// The transitions, ascending.
    pub nodes: Items<u32>,
    /// The ratio is p/q, in tokens for each edge, without a common factor.
    pub p: u64,
    pub q: u64,
    /// The edges of a closed walk whose tokens are p/q of its edges.
    pub cycle: Items<u32>,
    /// At least p*edges - q*tokens for each walk that ends at the transition.
    pub lag: Items<u64>,
    /// At least q*firings - p*cycles, whenever it is taken.
    pub lead: Items<u64>,
    /// An edge from a transition of less depth, or none where the closed walk starts.
    pub via: Items<Option<u32>>,
    pub depth: Items<u32>,
}

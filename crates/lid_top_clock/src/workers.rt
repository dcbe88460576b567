//! Who makes the cycles of a run in which nobody is held.

/// Workers: 1 to 64 of them, who pass a gate where they are more than one.
#[derive(Drop)]
pub struct Workers<'a, R, G> {
    /// What starts threads.
    pub rt: &'a R,
    /// What each worker passes before it decides for its actors.
    pub gate: &'a G,
    /// How many there are.
    pub many: u32,
}

//! The wires of a wrapped system.

/// A wire of a wrapped system. Actors, stations, shells and nets are told by their numbers.
#[derive(Clone, Copy)]
pub enum Wire {
    /// A data input.
    Entry(u32),
    /// A data input, as stations read it.
    Given(u32),
    /// The environment offers a row.
    Offer,
    /// The environment takes no row.
    Block,
    /// A bit that is the same in all rows.
    Steady(bool),
    /// So many first ends of an actor let it fire.
    May(u32, u32),
    /// An actor fires.
    Fire(u32),
    /// A station holds at least so many tokens.
    Level(u32, u32),
    /// A station holds at least so many tokens after this cycle.
    Grown(u32, u32),
    /// A station, a place in it, and a bit of the token there.
    Place(u32, u32, u32),
    /// The bit of a place after this cycle.
    Moved(u32, u32, u32),
    /// A shell and a net of its pearl.
    Now(u32, u32),
    /// What the net's latch takes.
    Kept(u32, u32),
    /// The net after a firing.
    Later(u32, u32),
    /// A data output.
    Shown(u32),
    /// A row is offered to the environment.
    Valid,
    /// No row is taken from the environment.
    Stop,
}

//! Laws of wrapped systems. The functions here do nothing; their contracts are laws for all systems and placements.

ghost use Rattle.lid_emit_system.specs.Laws.{WrappedSystemsTellTheirState, WrappedSystemsDeliver, WrappedSystemsAreConnected};

/// In each strict table of the network of a system and its stations, and in each cycle, the system is
/// stopped exactly where some station that the source fills is full, and offers a row exactly where each
/// station that the sink drains holds a token. The rows that it delivers and the outputs of the system for
/// the rows that it accepts are one the beginning of the other, whatever rows come after.
pub fn wrapped_systems_run()
    ensures tells { WrappedSystemsTellTheirState }
    ensures delivers { WrappedSystemsDeliver }
    ensures connected { WrappedSystemsAreConnected }
{}

//! Laws of the names of wires. The functions here do nothing; their contracts are laws for all plans.

ghost use Rattle.lid_emit_names.specs.Wires.{WiresHaveNames};

/// Each wire of a plan has a name of its own, where its ports have, and none of these begins with the
/// prefix of the others.
pub fn wires_have_names()
    ensures { WiresHaveNames }
{}

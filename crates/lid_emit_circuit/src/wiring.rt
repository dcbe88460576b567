//! Laws of the wires of a plan. The functions here do nothing; their contracts are laws for all plans.

ghost use Rattle.lid_emit_circuit.specs.Wiring.{WiresHaveCells, OthersAreNotDriven, WiresAreListed};

/// Each wire of a connected plan is an input of the network, or one cell drives it, which reads wires of the
/// plan. A cover reads lower wires alone, and no wire to which inputs lead unless they lead to its own.
/// Nothing drives a wire that is none of the plan's. The list of wires has each that no input drives, once.
pub fn wires_have_cells()
    ensures some { WiresHaveCells }
    ensures others { OthersAreNotDriven }
    ensures listed { WiresAreListed }
{}

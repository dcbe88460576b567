//! Laws of emitted designs. The functions here do nothing; their contracts are laws for all designs and placements.

ghost use Rattle.lid_emit_laws.specs.Laws.{FlatsFollowTables, EmittedDesignsRun};

use lid_strict::accepted_have_one_table;

/// The flat parts of the pearls of an accepted design follow the tables of its system. So a design of named
/// wires that is made of them, of the system and of stations that fit, in which the ports have their names,
/// tells in each cycle whether it stops its source and whether it serves its sink, and the rows that it
/// delivers are the strict outputs of the first design for the rows that it accepts.
pub fn emitted_designs_run()
    ensures flats { FlatsFollowTables }
    ensures runs { EmittedDesignsRun }
{
    accepted_have_one_table();
}

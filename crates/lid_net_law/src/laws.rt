//! The law of pearls.

ghost use Rattle.std.specs.Prelude.{◌≡◌, ◌<◌, ℕ, Bool, List, [], Some, length, map, slice_get};
ghost use Rattle.lid_cover.specs.Masks.{packed};
ghost use Rattle.lid_design.specs.declared.Design.{Design};
ghost use Rattle.lid_design.specs.declared.Flat.{Flat};
ghost use Rattle.lid_design.specs.Network.{Driver, Table, IsStrict};
ghost use Rattle.lid_base.specs.Each.{from_each};
ghost use Rattle.lid_design.specs.Walks.{IsDriven};
ghost use Rattle.lid_design.specs.Columns.{Column, column, drivers, root_inputs, IsStrictOutput};
ghost use Rattle.lid_pearl.specs.Pearls.{View, IsReordered};
ghost use Rattle.lid_system.specs.declared.System.{System};
ghost use Rattle.lid_system.specs.declared.Node.TheVariants.{Source, Shell};
ghost use Rattle.lid_system.specs.declared.InBit.{InBit};
ghost use Rattle.lid_system.specs.declared.Channel.{Channel};
ghost use Rattle.lid_system.specs.Systems.{Point, ports_at, IsWellFormed};
ghost use Rattle.lid_system.specs.Tables.{system_drivers, carried, IsTable};
ghost use Rattle.lid_system.specs.Streams.{IsStream, IsOutput};
ghost use Rattle.lid_check_parts.specs.Standing.{StandsForAll};
ghost use Rattle.lid_net_law.specs.Agreement.{column_of, seen, IsSystemOf};

/// A design and its system agree. A strict table of the design, seen at the points of the system, is a
/// table of the system, and each table of the system has its bits. So the tokens of a channel are the
/// bits of its ports' columns, which are the root's data inputs or the outputs of a pearl, and the strict
/// outputs of the two are the same. This does nothing; its contract is the law.
pub fn designs_and_systems_agree()
    ensures table { (d : Design) (s : System) (rows : List (List Bool)) (b : Table Column) (of : IsSystemOf d s) → IsWellFormed s
        → IsStrict (drivers d) rows b → IsTable s rows (seen d of.columns b) }
    ensures bits { (d : Design) (s : System) (rows : List (List Bool)) (b : Table Column) (a : Table Point) (t : ℕ) (p : Point) (of : IsSystemOf d s)
        → IsWellFormed s → IsStrict (drivers d) rows b → IsTable s rows a → t < length rows → IsDriven (system_drivers s) p
        → a t p ≡ b t (column_of d of.columns p) }
    ensures tokens { (d : Design) (s : System) (rows : List (List Bool)) (b : Table Column) (c : ℕ) (channel : Channel) (tokens : List ℕ)
        (of : IsSystemOf d s) → IsWellFormed s → IsStrict (drivers d) rows b → slice_get s.channels c ≡ Some channel → IsStream s rows c tokens
        → tokens ≡ from_each (λ t. packed (map (b t) (map (column_of d of.columns) (carried s channel)))) 0 (length rows) }
    ensures inputs { (d : Design) (s : System) (of : IsSystemOf d s) → IsWellFormed s
        → map (column_of d of.columns) (ports_at s 0) ≡ map (column []) (root_inputs d) }
    ensures outputs { (d : Design) (s : System) (i : ℕ) (pearl : View) (ins : List InBit) (of : IsSystemOf d s) (here : slice_get s.nodes i
        ≡ Some (Shell pearl ins))
        → map (column_of d of.columns) (ports_at s i) ≡ map (column (of.shells i pearl ins here).path) (of.shells i pearl ins here).model.outputs }
    ensures there { (d : Design) (s : System) (rows outs : List (List Bool)) → IsSystemOf d s → IsWellFormed s → IsStrictOutput d rows outs
        → IsOutput s rows outs }
    ensures back { (d : Design) (s : System) (rows outs : List (List Bool)) (b : Table Column) → IsSystemOf d s → IsWellFormed s
        → IsStrict (drivers d) rows b → IsOutput s rows outs → IsStrictOutput d rows outs }
{}

/// Where the nets of a flat part stand for columns, so do those of a pearl that has its covers in another
/// order. This does nothing; its contract is the law.
pub fn pearls_stand_for_columns()
    ensures { (d : Design) (col : ℕ → Column) (f g : Flat) → IsReordered f g → StandsForAll (drivers d) col f → StandsForAll (drivers d) col g }
{}

//! Laws of systems, their tables and their streams.

ghost use Rattle.std.specs.Prelude.{◌≡◌, ◌<◌, ◌+◌, ◌-◌, ◌^◌, ◌++◌, ℕ, Bool, List, Some, length, map, slice_get, take};
ghost use Rattle.std.specs.List.{AllByRecursion};
ghost use Rattle.lid_design.specs.Network.{Table, IsStrict};
ghost use Rattle.lid_base.specs.Each.{from_each};
ghost use Rattle.lid_design.specs.Walks.{IsDriven, HasTable, HasOneTable};
ghost use Rattle.lid_design.specs.Flat.{flat_drivers, latch_init, state_at};
ghost use Rattle.lid_cover.specs.Masks.{packed};
ghost use Rattle.lid_strict_engine.specs.Rows.{bit_at};
ghost use Rattle.lid_strict_engine.specs.Truth.{is_set};
ghost use Rattle.lid_pearl.specs.Pearls.{View, Shows, Steps};
ghost use Rattle.lid_system.specs.declared.System.{System};
ghost use Rattle.lid_system.specs.declared.Node.TheVariants.{Source, Shell, Sink};
ghost use Rattle.lid_system.specs.declared.InBit.{InBit};
ghost use Rattle.lid_system.specs.declared.InBit.TheVariants.{Port};
ghost use Rattle.lid_system.specs.declared.Channel.{Channel};
ghost use Rattle.lid_system.specs.Systems.{Point, shell_net, ports_at, IsWellFormed};
ghost use Rattle.lid_system.specs.Tables.{system_drivers, IsTable, nets_of, in_bit, input_bits, port_bits};
ghost use Rattle.lid_system.specs.Streams.{token_at, IsStream, IsOutput};

use lid_design::some_flat_part_meets_its_rules;

/// A well-formed system has its source first, its sink last, and shells between them. This does nothing;
/// its contract is the law.
pub fn shells_stand_between_source_and_sink()
    ensures first { (s : System) → IsWellFormed s → (columns : List (List ℕ)) × (slice_get s.nodes 0 ≡ Some (Source columns)) }
    ensures last { (s : System) → IsWellFormed s → (columns : List (List ℕ)) × (ins : List InBit)
        × (slice_get s.nodes (length s.nodes - 1) ≡ Some (Sink columns ins)) }
    ensures between { (s : System) (i : ℕ) → IsWellFormed s → 0 < i → i + 1 < length s.nodes → (pearl : View) × (ins : List InBit)
        × (slice_get s.nodes i ≡ Some (Shell pearl ins)) }
{}

/// A well-formed system has exactly one table for any rows: two tables agree at each port and at each
/// net of a shell, since these are driven. This does nothing; its contract is the law.
pub fn systems_have_one_table()
    ensures some { (s : System) → IsWellFormed s → HasTable (system_drivers s) }
    ensures one { (s : System) → IsWellFormed s → HasOneTable (system_drivers s) }
    ensures ports { (s : System) (i : ℕ) → IsWellFormed s → AllByRecursion (IsDriven (system_drivers s)) (ports_at s i) }
    ensures nets { (s : System) (i k : ℕ) (pearl : View) (ins : List InBit) → IsWellFormed s → slice_get s.nodes i ≡ Some (Shell pearl ins)
        → k < pearl.flat.nets → IsDriven (system_drivers s) (shell_net i k) }
{}

/// Each channel of a well-formed system has exactly one stream for any rows. It has a token of 31 bits
/// for each row: that of each table. This does nothing; its contract is the law.
pub fn channels_have_one_stream()
    ensures some { (s : System) (rows : List (List Bool)) (c : ℕ) → IsWellFormed s → c < length s.channels → (tokens : List ℕ) × IsStream s rows c tokens }
    ensures one { (s : System) (rows : List (List Bool)) (c : ℕ) (tokens others : List ℕ) → IsStream s rows c tokens → IsStream s rows c others
        → tokens ≡ others }
    ensures long { (s : System) (rows : List (List Bool)) (c : ℕ) (tokens : List ℕ) → IsStream s rows c tokens → length tokens ≡ length rows }
    ensures small { (s : System) (rows : List (List Bool)) (c : ℕ) (tokens : List ℕ) → IsWellFormed s → IsStream s rows c tokens
        → AllByRecursion (λ token. token < 2 ^ 31) tokens }
    ensures tokens { (s : System) (rows : List (List Bool)) (c t : ℕ) (tokens : List ℕ) (channel : Channel) (b : Table Point)
        → IsStream s rows c tokens → slice_get s.channels c ≡ Some channel → IsTable s rows b → t < length rows
        → slice_get tokens t ≡ Some (token_at s b channel t) }
{}

/// A well-formed system has exactly one list of strict output rows for any rows, one for each. This does
/// nothing; its contract is the law.
pub fn systems_have_one_output()
    ensures some { (s : System) (rows : List (List Bool)) → IsWellFormed s → (outs : List (List Bool)) × IsOutput s rows outs }
    ensures one { (s : System) (rows outs others : List (List Bool)) → IsOutput s rows outs → IsOutput s rows others → outs ≡ others }
    ensures long { (s : System) (rows outs : List (List Bool)) → IsOutput s rows outs → length outs ≡ length rows }
{}

/// Tokens carry bits of ports. The bits of a node's ports, packed for a channel that comes from the
/// node, are the channel's token, and a bit of the token is what an input that reads it has. This does nothing; its contract is
/// the law.
pub fn tokens_carry_bits()
    ensures packs { (s : System) (b : Table Point) (t : ℕ) (c : ℕ) (channel : Channel) → IsWellFormed s → slice_get s.channels c ≡ Some channel
        → packed (map (bit_at (port_bits s b channel.from t)) channel.ports) ≡ token_at s b channel t }
    ensures unpacks { (s : System) (b : Table Point) (t chan bit : ℕ) (channel : Channel) → slice_get s.channels chan ≡ Some channel
        → bit < length channel.ports → is_set (token_at s b channel t) bit ≡ in_bit s b t (Port chan bit) }
{}

/// The ports of the source have the bits of the row. This does nothing; its contract is the law.
pub fn sources_give_rows()
    ensures { (s : System) (rows : List (List Bool)) (b : Table Point) (t : ℕ) (columns : List (List ℕ)) (row : List Bool)
        → slice_get s.nodes 0 ≡ Some (Source columns) → IsTable s rows b → slice_get rows t ≡ Some row → length row ≡ length columns
        → port_bits s b 0 t ≡ row }
{}

/// The bits of the first rows do not depend on later rows: a table of all rows is one of the first rows,
/// and these have the first tokens of each stream and the first output rows. This does nothing; its
/// contract is the law.
pub fn first_rows_have_the_first_tokens()
    ensures table { (s : System) (rows more : List (List Bool)) (b : Table Point) → IsTable s (rows ++ more) b → IsTable s rows b }
    ensures stream { (s : System) (rows more : List (List Bool)) (c : ℕ) (tokens : List ℕ) → IsWellFormed s → c < length s.channels
        → IsStream s (rows ++ more) c tokens → IsStream s rows c (take (length rows) tokens) }
    ensures output { (s : System) (rows more outs : List (List Bool)) → IsWellFormed s → IsOutput s (rows ++ more) outs
        → IsOutput s rows (take (length rows) outs) }
{}

/// The nets of a shell are a strict table of its flat part, with the bits of the shell's inputs as its
/// rows. So a pearl whose latches begin has the state of the first row; one with the state of row t shows the
/// bits of the shell's ports in that row, and a step with the shell's inputs of row t takes it to the
/// state of row t + 1, and to the ports' bits of that row where there is one. This does nothing; its
/// contract is the law.
pub fn shells_follow_tables()
    ensures table { (s : System) (rows : List (List Bool)) (b : Table Point) (i : ℕ) (pearl : View) (ins : List InBit) → IsWellFormed s
        → slice_get s.nodes i ≡ Some (Shell pearl ins) → IsTable s rows b
        → IsStrict (flat_drivers pearl.flat) (from_each (input_bits s b i) 0 (length rows)) (nets_of b i) }
    ensures begins { (s : System) (b : Table Point) (i : ℕ) (pearl : View) (ins : List InBit) → IsWellFormed s
        → slice_get s.nodes i ≡ Some (Shell pearl ins) → pearl.state ≡ state_at pearl.flat (nets_of b i) 0 }
    ensures shows { (s : System) (rows : List (List Bool)) (b : Table Point) (i t : ℕ) (pearl p : View) (ins : List InBit) (outs : List Bool)
        → IsWellFormed s → slice_get s.nodes i ≡ Some (Shell pearl ins) → IsTable s rows b → t < length rows → p.flat ≡ pearl.flat
        → p.state ≡ state_at pearl.flat (nets_of b i) t → Shows p outs → outs ≡ port_bits s b i t }
    ensures goes { (s : System) (rows : List (List Bool)) (b : Table Point) (i t : ℕ) (pearl p q : View) (ins : List InBit) (outs : List Bool)
        → IsWellFormed s → slice_get s.nodes i ≡ Some (Shell pearl ins) → IsTable s rows b → t < length rows → p.flat ≡ pearl.flat
        → p.state ≡ state_at pearl.flat (nets_of b i) t → Steps p (input_bits s b i t) q outs → (q.flat ≡ pearl.flat)
        × (q.state ≡ state_at pearl.flat (nets_of b i) (t + 1)) }
    ensures gives { (s : System) (rows : List (List Bool)) (b : Table Point) (i t : ℕ) (pearl p q : View) (ins : List InBit) (outs : List Bool)
        → IsWellFormed s → slice_get s.nodes i ≡ Some (Shell pearl ins) → IsTable s rows b → t + 1 < length rows → p.flat ≡ pearl.flat
        → p.state ≡ state_at pearl.flat (nets_of b i) t → Steps p (input_bits s b i t) q outs → outs ≡ port_bits s b i (t + 1) }
{}

/// The rules of systems can be met by a system with a shell. This does nothing; its contract is the law.
pub fn some_system_is_well_formed()
    ensures { (s : System) × IsWellFormed s × (length s.nodes ≡ 3) × (length s.channels ≡ 2) }
{
    some_flat_part_meets_its_rules();
}

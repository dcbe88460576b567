//! The tokens with which stations start.

ghost use Rattle.std.specs.Prelude.{◌≡◌, ◌≤◌, ◌<◌, ◌+◌, ◌-◌, ◌^◌, ℕ, length, map, replicate, None, IfOk, IfSome, OnOk};
ghost use Rattle.std.specs.List.{All, AllByRecursion};
ghost use Rattle.lid_stations.specs.Placements.{station_count};
ghost use Rattle.lid_walk_machine.specs.Setups.{plan};
ghost use Rattle.lid_shell_laws.specs.Setups.{Setup, IsInputRow};
ghost use Rattle.lid_texts_packed.specs.Input.{input_of};
ghost use Rattle.lid_walk.specs.Setups.{IsSetupOf};
ghost use Rattle.lid_walk.specs.Firsts.{first_tokens};
ghost use Rattle.lid_walk.specs.Inside.{AreFillsWired, AreWritten, HasFirsts, BeginsWith};

use crate::ends::FillWiring;
use crate::tokens::node_tokens;
use lid_shell::actors_go_by_rules;
use lid_stations::Placed;
use lid_system::systems_have_one_table;
use lid_texts_packed::InputRows;
use std::alloc::{AllocError, Global};

/// Writes the start tokens of some stations.
fn write_tokens(stations: &[u32], tokens: &[u32], firsts: &mut [Option<u32>])
    requires many { length tokens.now ≡ length stations.now }
    requires there { All (λ station. station < length firsts.old) stations.now }
    ensures many { length firsts.new ≡ length firsts.old }
    ensures written { (f : ℕ → ℕ) → tokens.now ≡ map f stations.now → AreWritten f stations.now (length stations.now) firsts.old firsts.new }
{
    for i in 0..stations.len() {
        firsts[stations[i] as usize] = Some(tokens[i]);
    }
}

/// Writes the start tokens of the stations that a node fills, which is not the sink, in a run that begins with a row.
fn write_node(
    alloc: Global,
    placed: &Placed<'_>,
    wiring: &FillWiring,
    node: u32,
    row: &[bool],
    firsts: &mut [Option<u32>],
) -> Result<(), AllocError>
    requires wired { AreFillsWired placed.now wiring.now }
    requires node { node + 1 < length placed.now.system.nodes }
    requires row { IsInputRow placed.now.system row.now }
    requires many { length firsts.old ≡ station_count placed.now.placement.relays }
    ensures many { length firsts.new ≡ length firsts.old }
    ensures firsts { OnOk result ((m : Setup) → BeginsWith m placed.now row.now → HasFirsts m node firsts.old → HasFirsts m (node + 1) firsts.new) }
{
    actors_go_by_rules();
    let listed = wiring.outs.as_slice()[node as usize].as_slice();
    let places = &wiring.places;
    let tokens = node_tokens(alloc, placed.system, places, node, row, listed.len())?;
    write_tokens(listed, tokens.as_slice(), firsts);
    Ok(())
}

/// Writes the start tokens of all stations, in a run that begins with a row.
fn write_nodes(
    alloc: Global,
    placed: &Placed<'_>,
    row: &[bool],
    firsts: &mut [Option<u32>],
) -> Result<(), AllocError>
    requires row { IsInputRow placed.now.system row.now }
    requires many { length firsts.old ≡ station_count placed.now.placement.relays }
    ensures many { length firsts.new ≡ length firsts.old }
    ensures firsts { OnOk result ((m : Setup) → BeginsWith m placed.now row.now → HasFirsts m 0 firsts.old
        → HasFirsts m (length placed.now.system.nodes - 1) firsts.new) }
{
    let wiring = FillWiring::of(alloc, placed)?;
    for node in 0..placed.system.nodes.len() as u32 - 1 {
        write_node(alloc, placed, &wiring, node, row, firsts)?;
    }
    Ok(())
}

/// So many stations that start with no token.
fn no_tokens(alloc: Global, many: usize) -> Result<Vec<Option<u32>>, AllocError>
    ensures { IfOk result (λ firsts. firsts.items ≡ replicate many None) }
{
    Vec::from_elem(alloc, None, many)
}

/// The tokens with which the stations of a run start that begins with a row.
fn tokens_of(
    alloc: Global,
    placed: &Placed<'_>,
    row: &[bool],
) -> Result<Vec<Option<u32>>, AllocError>
    requires row { IsInputRow placed.now.system row.now }
    ensures { IfOk result (λ firsts. (m : Setup) → BeginsWith m placed.now row.now → firsts.items ≡ first_tokens (plan m)) }
{
    actors_go_by_rules();
    let mut firsts = no_tokens(alloc, placed.placement.caps.len())?;
    write_nodes(alloc, placed, row, firsts.as_mut_slice())?;
    Ok(firsts)
}

/// The same of a run over rows.
fn tokens_at_start(
    alloc: Global,
    placed: &Placed<'_>,
    rows: InputRows<'_>,
) -> Result<Vec<Option<u32>>, AllocError>
    requires { AllByRecursion (IsInputRow placed.now.system) (input_of rows) }
    ensures { IfOk result (λ firsts. (m : Setup) → IsSetupOf m placed.now.system placed.now.placement (input_of rows.entry)
        → firsts.items ≡ first_tokens (plan m)) }
{
    let count = rows.len();
    if count == 0 {
        return no_tokens(alloc, placed.placement.caps.len());
    }
    let row = rows.first(alloc)?;
    tokens_of(alloc, placed, row.as_slice())
}

/// The tokens with which the stations of a run start, in order: where there are rows, a station that a node fills
/// starts with the token of the first row, and a station that a mover fills with none. Without rows none starts with
/// one. There are at most 1,000,000 rows, each as wide as the source.
///
/// # Errors
/// Memory is wanting.
pub fn first_tokens(
    alloc: Global,
    placed: &Placed<'_>,
    rows: InputRows<'_>,
) -> Result<Vec<Option<u32>>, AllocError>
    requires few { length (input_of rows) ≤ 1000000 }
    requires wide { AllByRecursion (IsInputRow placed.now.system) (input_of rows) }
    ensures are { IfOk result (λ firsts. (m : Setup) → IsSetupOf m placed.now.system placed.now.placement (input_of rows.entry)
        → firsts.items ≡ first_tokens (plan m)) }
    ensures many { IfOk result (λ firsts. length firsts.items ≡ length placed.now.placement.caps) }
    ensures small { IfOk result (λ firsts. All (λ first. IfSome first (λ token. token < 2 ^ 31)) firsts.items) }
{
    systems_have_one_table();
    let _ = &placed.system;
    tokens_at_start(alloc, placed, rows)
}

//! The rule of the table, and the steps that hands make on it.

ghost use Rattle.std.specs.Prelude.{◌≡◌, ℕ, ◌<◌, bit_and, bit_or, Bool, true, false, []};
ghost use Rattle.atomic_table.specs.Table.{Allows};
ghost use Rattle.lid_board.specs.Owners.{IsOwned, IsAtWord};
ghost use Rattle.lid_board.specs.Parting.{left_from, right_from, merged_ends};
ghost use Rattle.lid_board.specs.Relation.{Related};
ghost use Rattle.lid_board.specs.Views.{IsEarly};
ghost use Rattle.lid_board.specs.declared.view.HandView.{HandView};

use crate::view::HandView;
use atomic_table::{Join, Play, Seat, Shared, Split, TableRule};
use lid_station::End;
use std::marker::{Brand, PhantomData};

/// The rule of a board, which holds between any two steps. The key has what was known at the start.
pub struct Order;

impl TableRule<(), HandView, Seat<(), HandView>> for Order {
    ghost holds = { λ key. Related key.me.0.ends };

    ghost first = { λ key. key.me.0 };
}

/// The table of a board, as threads share it.
pub(crate) type Cells = Shared<(), HandView, Seat<(), HandView>, Order>;

/// What a step tells: of the number found, and of the view after it.
pub(crate) trait Telling {
    ghost told: { ℕ → HandView → Type 0 };
}

impl Telling for Brand {
    ghost told = { λ _ _. Unit {0} };
}

struct Tells<J> {
    telling: PhantomData<J>,
}

impl<J: Telling> Play<(), HandView> for Tells<J> {
    ghost then = { λ _ m found n. (n.1 ≡ m.1) × J.told found n.0 };
}

/// Loads a word. The station and the place are for contracts alone.
pub(crate) fn load_as<J: Telling>(
    cells: &Cells,
    seat: &mut Seat<(), HandView>,
    word: usize,
    _station: u32,
    _place: u64,
) -> u64
    requires here { IsAtWord seat.old.table_id cells.now.table_id word }
    requires rule { Allows (Related cells.now.key.me.0.ends) cells.now.table_id.slots seat.old.id seat.old.me word (λ n. n)
        (λ found m. (m.1 ≡ seat.old.me.1) × J.told found m.0) }
    ensures seat { (seat.new.table_id ≡ seat.old.table_id) × (seat.new.id ≡ seat.old.id) × (seat.new.me.1 ≡ seat.old.me.1) }
    ensures told { J.told result seat.new.me.0 }
{
    cells.load::<Tells<J>>(seat, word)
}

/// Keeps these bits of a word, and answers what it was. The station and the place are for contracts
/// alone.
pub(crate) fn and_as<J: Telling>(
    cells: &Cells,
    seat: &mut Seat<(), HandView>,
    word: usize,
    bits: u64,
    _station: u32,
    _place: u64,
) -> u64
    requires here { IsAtWord seat.old.table_id cells.now.table_id word }
    requires rule { Allows (Related cells.now.key.me.0.ends) cells.now.table_id.slots seat.old.id seat.old.me word (λ n. bit_and n bits)
        (λ found m. (m.1 ≡ seat.old.me.1) × J.told found m.0) }
    ensures seat { (seat.new.table_id ≡ seat.old.table_id) × (seat.new.id ≡ seat.old.id) × (seat.new.me.1 ≡ seat.old.me.1) }
    ensures told { J.told result seat.new.me.0 }
{
    cells.fetch_and::<Tells<J>>(seat, word, bits)
}

/// Sets these bits of a word. The station is for contracts alone.
pub(crate) fn or_as<J: Telling>(
    cells: &Cells,
    seat: &mut Seat<(), HandView>,
    word: usize,
    bits: u64,
    _station: u32,
)
    requires here { IsAtWord seat.old.table_id cells.now.table_id word }
    requires rule { Allows (Related cells.now.key.me.0.ends) cells.now.table_id.slots seat.old.id seat.old.me word (λ n. bit_or n bits)
        (λ found m. (m.1 ≡ seat.old.me.1) × J.told found m.0) }
    ensures seat { (seat.new.table_id ≡ seat.old.table_id) × (seat.new.id ≡ seat.old.id) × (seat.new.me.1 ≡ seat.old.me.1) }
    ensures told { (found : ℕ) × J.told found seat.new.me.0 }
{
    let _found = cells.fetch_or::<Tells<J>>(seat, word, bits);
}

/// Which ends go to a new hand.
pub(crate) trait Choosing {
    ghost chosen: { ℕ → Bool };
}

impl Choosing for Brand {
    ghost chosen = { λ _. false };
}

struct Parts<J> {
    choosing: PhantomData<J>,
}

impl<J: Choosing> Split<HandView> for Parts<J> {
    ghost left = { λ v. record { ends = left_from J.chosen 0 v.ends; steps = v.steps } };

    ghost right = { λ v. record { ends = right_from J.chosen 0 v.ends; steps = [] } };
}

/// Cuts what a seat knows in two. The ends are for contracts alone.
pub(crate) fn split_as<J: Choosing>(
    cells: &Cells,
    seat: &mut Seat<(), HandView>,
    _ends: &[End],
) -> Seat<(), HandView>
    requires here { IsAtWord seat.old.table_id cells.now.table_id 0 }
    requires owned { (end : ℕ) → J.chosen end ≡ true → IsOwned seat.old.me.0.ends end }
    ensures seat { (seat.new.table_id ≡ seat.old.table_id) × (seat.new.me.1 ≡ seat.old.me.1) × (result.table_id ≡ seat.old.table_id) × (result.me.1 ≡ []) }
    ensures left { seat.new.me.0.ends ≡ left_from J.chosen 0 seat.old.me.0.ends }
    ensures right { result.me.0.ends ≡ right_from J.chosen 0 seat.old.me.0.ends }
    ensures steps { (seat.new.me.0.steps ≡ seat.old.me.0.steps) × (result.me.0.steps ≡ []) }
    ensures early { IsEarly seat.old.me.0.ends → IsEarly seat.new.me.0.ends × IsEarly result.me.0.ends }
{
    cells.split_seat::<Parts<J>>(seat)
}

struct Both;

impl Join<HandView> for Both {
    ghost both = { λ v w. record { ends = merged_ends v.ends w.ends; steps = v.steps } };

    ghost spent = { record { ends = []; steps = [] } };
}

/// Makes what two seats know one.
pub(crate) fn join_both(cells: &Cells, seat: &mut Seat<(), HandView>, other: Seat<(), HandView>)
    requires here { IsAtWord seat.old.table_id cells.now.table_id 0 }
    requires other { other.table_id ≡ cells.now.table_id }
    requires no_slot { other.me.1 ≡ [] }
    ensures seat { (seat.new.table_id ≡ seat.old.table_id) × (seat.new.me.1 ≡ seat.old.me.1) }
    ensures both { seat.new.me.0.ends ≡ merged_ends seat.old.me.0.ends other.me.0.ends }
    ensures steps { seat.new.me.0.steps ≡ seat.old.me.0.steps }
    ensures early { IsEarly seat.old.me.0.ends → IsEarly other.me.0.ends → IsEarly seat.new.me.0.ends }
{
    cells.join_seat::<Both>(seat, other);
}

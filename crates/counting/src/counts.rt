// What the moves of an event add to the tallies of the names.
ghost use Rattle.std.specs.Prelude.{◌≡◌, ◌||◌, length};
ghost use Rattle.items.specs.Ascending.{held};
ghost use Rattle.items.specs.Items.{item_order};
ghost use Rattle.rules.specs.Kinds.{value_kind};
ghost use Rattle.rules.specs.Step.{moved_by};
ghost use Rattle.rules.specs.declared.moves.Cause.TheVariants.{Asked};
ghost use Rattle.counting.specs.Counts.{CountsAfter, RoomFor, ask_tally, counted, goes, gone_tally, move_tally};

use items::{Item, Shelf};
use rules::{Cause, Move, Tally};
use step::{is_left, is_moved, takes_out};
use values::Value;

// What an ask counts: it may be a repeated one.
fn ask_tally(again: bool) -> Tally
    ensures { result ≡ ask_tally again }
{
    Tally {
        asked: 1,
        repeats: u128::from(again),
        ..Tally::default()
    }
}

// What an item that is gone counts: it is gone by the first cause that applies.
fn gone_tally<V: Value>(item: &Item<V>, moves: &[Move<V>]) -> Tally
    ensures { result ≡ gone_tally (value_kind V.Value) moves.now item.now }
{
    let fired = is_moved(Cause::Fired, item, moves);
    let lapsed = is_moved(Cause::Lapsed, item, moves);
    let struck = is_moved(Cause::Struck, item, moves);
    Tally {
        fired: u128::from(fired),
        lapsed: u128::from(!fired && lapsed),
        struck: u128::from(!fired && !lapsed && struck),
        ..Tally::default()
    }
}

// Whether the item of a move leaves for good by it.
fn is_going<V: Value, S: Shelf<Of = V>>(
    shelf: &S,
    moves: &[Move<V>],
    front: &[Move<V>],
    change: &Move<V>,
) -> bool
    ensures { result ≡ goes (value_kind V.Value) moves.now (S.Shelf.items shelf.now) front.now change.now }
{
    is_left(shelf, front, &change.item) && !is_moved(Cause::Asked, &change.item, moves)
}

// Whether the item of an ask was there before the event, or was asked for in front.
fn is_repeated<V: Value, S: Shelf<Of = V>>(shelf: &S, front: &[Move<V>], item: &Item<V>) -> bool
    ensures { result ≡ (moved_by (value_kind V.Value) Asked front.now item.now || held (item_order V.Ord.cmp) item.now (S.Shelf.items shelf.now)) }
{
    is_moved(Cause::Asked, item, front) || shelf.holds(item)
}

// What one move adds to the tally of its item's name, where `front` are the moves in front of it.
fn move_tally<V: Value, S: Shelf<Of = V>>(
    shelf: &S,
    moves: &[Move<V>],
    front: &[Move<V>],
    change: &Move<V>,
) -> Tally
    ensures { result ≡ move_tally (value_kind V.Value) moves.now (S.Shelf.items shelf.now) front.now change.now }
{
    if !takes_out(change.cause) {
        ask_tally(is_repeated(shelf, front, &change.item))
    } else if is_going(shelf, moves, front, change) {
        gone_tally(&change.item, moves)
    } else {
        Tally::default()
    }
}

// Counts more of a name; a name past the table is not counted.
pub fn count_name(tallies: &mut [Tally; 32], name: u8, more: Tally)
    ensures { tallies.new ≡ counted tallies.old name more }
{
    if name < 32 {
        tallies[usize::from(name)].add(more);
    }
}

// Adds what the moves of an event count to the tallies; the shelf holds the set before the event.
pub fn count_moves<V: Value, S: Shelf<Of = V>>(
    tallies: &mut [Tally; 32],
    shelf: &S,
    moves: &[Move<V>],
)
    requires room { RoomFor (length moves.now) tallies.old }
    ensures { CountsAfter (value_kind V.Value) moves.now (S.Shelf.items shelf.now) tallies.old tallies.new }
{
    for (i, change) in moves.iter().enumerate() {
        let more = move_tally(shelf, moves, &moves[0..i], change);
        count_name(tallies, change.item.name, more);
    }
}

// What the moves of an event add to the counts of a name.
ghost use Rattle.std.specs.Prelude.{◌≡◌, []};
ghost use Rattle.rules.specs.Kinds.{value_kind};
ghost use Rattle.rules.specs.Step.{Asks, FiredOut, LapsedOut, Repeats, Starts, StruckOut, count_added};
ghost use Rattle.step.specs.Counts.{count_from, is_counted, part_of};

use crate::causes::is_moved;
use crate::changes::takes_out;
use crate::part::Part;
use crate::sizes::is_left;
use items::{Item, Shelf};
use rules::{Cause, Move, Tally};
use values::Value;

// Whether an item that is gone counts under that cause: the first that applies.
fn is_part<V: Value>(cause: Cause, item: &Item<V>, moves: &[Move<V>]) -> bool
    ensures { result ≡ part_of (value_kind V.Value) cause moves.now item.now }
{
    match cause {
        Cause::Fired => is_moved(Cause::Fired, item, moves),
        Cause::Lapsed => {
            !is_moved(Cause::Fired, item, moves) && is_moved(Cause::Lapsed, item, moves)
        }
        Cause::Struck => {
            !is_moved(Cause::Fired, item, moves)
                && !is_moved(Cause::Lapsed, item, moves)
                && is_moved(Cause::Struck, item, moves)
        }
        Cause::Asked => false,
    }
}

// Whether a move of those behind `front` counts under that part, for the name.
fn is_counted<V: Value, S: Shelf<Of = V>>(
    part: Part,
    shelf: &S,
    moves: &[Move<V>],
    front: &[Move<V>],
    change: &Move<V>,
    name: u8,
) -> bool
    ensures { result ≡ is_counted (value_kind V.Value) moves.now (S.Shelf.items shelf.now) name part front.now change.now }
{
    match part {
        Part::Ask => !takes_out(change.cause) && change.item.name == name,
        Part::Repeat => {
            !takes_out(change.cause)
                && change.item.name == name
                && (is_moved(Cause::Asked, &change.item, front) || shelf.holds(&change.item))
        }
        Part::Out(cause) => {
            takes_out(change.cause)
                && is_left(shelf, front, &change.item)
                && !is_moved(Cause::Asked, &change.item, moves)
                && change.item.name == name
                && is_part(cause, &change.item, moves)
        }
    }
}

// How many moves count under that part, for the name.
fn count_part<V: Value, S: Shelf<Of = V>>(
    part: Part,
    shelf: &S,
    moves: &[Move<V>],
    name: u8,
) -> usize
    ensures { result ≡ count_from (is_counted (value_kind V.Value) moves.now (S.Shelf.items shelf.now) name part) [] moves.now }
{
    let mut total = 0;
    for (i, change) in moves.iter().enumerate() {
        if is_counted(part, shelf, moves, &moves[0..i], change, name) {
            total += 1;
        }
    }
    total
}

// What the moves of an event add to the counts of a name; the shelf holds the set before the event.
pub fn count_added<V: Value, S: Shelf<Of = V>>(shelf: &S, moves: &[Move<V>], name: u8) -> Tally
    ensures started { result.started ≡ count_added (value_kind V.Value) Starts name moves.now (S.Shelf.items shelf.now) }
    ensures asked { result.asked ≡ count_added (value_kind V.Value) Asks name moves.now (S.Shelf.items shelf.now) }
    ensures repeats { result.repeats ≡ count_added (value_kind V.Value) Repeats name moves.now (S.Shelf.items shelf.now) }
    ensures fired { result.fired ≡ count_added (value_kind V.Value) FiredOut name moves.now (S.Shelf.items shelf.now) }
    ensures lapsed { result.lapsed ≡ count_added (value_kind V.Value) LapsedOut name moves.now (S.Shelf.items shelf.now) }
    ensures struck { result.struck ≡ count_added (value_kind V.Value) StruckOut name moves.now (S.Shelf.items shelf.now) }
{
    let asked = count_part(Part::Ask, shelf, moves, name);
    let repeats = count_part(Part::Repeat, shelf, moves, name);
    let fired = count_part(Part::Out(Cause::Fired), shelf, moves, name);
    let lapsed = count_part(Part::Out(Cause::Lapsed), shelf, moves, name);
    let struck = count_part(Part::Out(Cause::Struck), shelf, moves, name);
    Tally {
        asked: asked as u128,
        repeats: repeats as u128,
        fired: fired as u128,
        lapsed: lapsed as u128,
        struck: struck as u128,
        ..Tally::default()
    }
}

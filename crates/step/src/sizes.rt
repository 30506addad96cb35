// How many items the new set has, worked out from the moves: the shelf stays as it is.
ghost use Rattle.std.specs.Prelude.{◌≡◌, ◌+◌, ◌^◌, ◌<◌, ◌≤◌, not, ◌&&◌, length};
ghost use Rattle.items.specs.Ascending.{held, kept};
ghost use Rattle.items.specs.Items.{item_order};
ghost use Rattle.rules.specs.Kinds.{value_kind};
ghost use Rattle.rules.specs.Step.{moved, new_set, taken, with_all};
ghost use Rattle.rules.specs.declared.moves.Cause.TheVariants.{Asked};
ghost use Rattle.step.specs.Sets.{in_by, out_by, takes_out};

use crate::causes::{is_moved, is_taken};
use crate::changes::takes_out;
use items::{Item, Shelf};
use rules::{Cause, Move};
use values::Value;

// Whether the shelf holds the item, and no move takes it out.
pub fn is_left<V: Value, S: Shelf<Of = V>>(shelf: &S, moves: &[Move<V>], item: &Item<V>) -> bool
    ensures { result ≡ held (item_order V.Ord.cmp) item.now (kept (λ x. not (taken (value_kind V.Value) moves.now x)) (S.Shelf.items shelf.now)) }
{
    shelf.holds(item) && !is_taken(item, moves)
}

// Whether the item is left by all moves, or one in front asks for it.
fn is_there<V: Value, S: Shelf<Of = V>>(
    shelf: &S,
    moves: &[Move<V>],
    front: &[Move<V>],
    item: &Item<V>,
) -> bool
    ensures { result ≡ held (item_order V.Ord.cmp) item.now (with_all (item_order V.Ord.cmp) (kept (λ x. not (taken (value_kind V.Value) moves.now x)) (S.Shelf.items shelf.now)) (moved Asked front.now)) }
{
    is_moved(Cause::Asked, item, front) || is_left(shelf, moves, item)
}

// Whether a move takes out an item that those in front have left.
fn leaves<V: Value, S: Shelf<Of = V>>(shelf: &S, front: &[Move<V>], change: &Move<V>) -> bool
    ensures { result ≡ (takes_out change.now.cause && held (item_order V.Ord.cmp) change.now.item (kept (λ x. not (taken (value_kind V.Value) front.now x)) (S.Shelf.items shelf.now))) }
{
    takes_out(change.cause) && is_left(shelf, front, &change.item)
}

// Whether a move asks for an item that is not there.
fn joins<V: Value, S: Shelf<Of = V>>(
    shelf: &S,
    moves: &[Move<V>],
    front: &[Move<V>],
    change: &Move<V>,
) -> bool
    ensures { result ≡ (not (takes_out change.now.cause) && not (held (item_order V.Ord.cmp) change.now.item (with_all (item_order V.Ord.cmp) (kept (λ x. not (taken (value_kind V.Value) moves.now x)) (S.Shelf.items shelf.now)) (moved Asked front.now)))) }
{
    !takes_out(change.cause) && !is_there(shelf, moves, front, &change.item)
}

// How many are left after one more move, where so many were left by those in front.
fn left_after<V: Value, S: Shelf<Of = V>>(
    shelf: &S,
    front: &[Move<V>],
    change: &Move<V>,
    left: usize,
) -> usize
    requires left { left ≡ length (kept (λ x. not (taken (value_kind V.Value) front.now x)) (S.Shelf.items shelf.now)) }
    ensures { result ≡ length (out_by V.Ord.cmp change.now (kept (λ x. not (taken (value_kind V.Value) front.now x)) (S.Shelf.items shelf.now))) }
{
    if leaves(shelf, front, change) {
        left - 1
    } else {
        left
    }
}

// The size after one more move's ask, where it was so much after those in front.
fn size_after<V: Value, S: Shelf<Of = V>>(
    shelf: &S,
    moves: &[Move<V>],
    front: &[Move<V>],
    change: &Move<V>,
    size: u128,
) -> u128
    requires room { size < 2 ^ 127 }
    requires size { size ≡ length (with_all (item_order V.Ord.cmp) (kept (λ x. not (taken (value_kind V.Value) moves.now x)) (S.Shelf.items shelf.now)) (moved Asked front.now)) }
    ensures value { result ≡ length (in_by V.Ord.cmp change.now (with_all (item_order V.Ord.cmp) (kept (λ x. not (taken (value_kind V.Value) moves.now x)) (S.Shelf.items shelf.now)) (moved Asked front.now))) }
    ensures most { result ≤ size + 1 }
{
    if joins(shelf, moves, front, change) {
        size + 1
    } else {
        size
    }
}

// How many items are left after all moves took theirs out.
fn left_size<V: Value, S: Shelf<Of = V>>(shelf: &S, moves: &[Move<V>]) -> usize
    ensures { result ≡ length (kept (λ x. not (taken (value_kind V.Value) moves.now x)) (S.Shelf.items shelf.now)) }
{
    let mut left = shelf.count();
    for (i, change) in moves.iter().enumerate() {
        left = left_after(shelf, &moves[0..i], change, left);
    }
    left
}

// How many items the new set has.
pub fn new_size<V: Value, S: Shelf<Of = V>>(shelf: &S, moves: &[Move<V>]) -> u128
    ensures { result ≡ length (new_set (value_kind V.Value) moves.now (S.Shelf.items shelf.now)) }
{
    let mut size = left_size(shelf, moves) as u128;
    for (i, change) in moves.iter().enumerate() {
        size = size_after(shelf, moves, &moves[0..i], change, size);
    }
    size
}

// Making the changes of an event's moves on a shelf: what is taken out first, and then what is asked for.
ghost use Rattle.std.specs.Prelude.{◌≡◌, ◌≤◌, not, length};
ghost use Rattle.items.specs.Ascending.{kept};
ghost use Rattle.items.specs.Items.{item_order};
ghost use Rattle.rules.specs.Kinds.{value_kind};
ghost use Rattle.rules.specs.Step.{moved, new_set, taken, with_all};
ghost use Rattle.rules.specs.declared.moves.Cause.TheVariants.{Asked};
ghost use Rattle.step.specs.Sets.{in_by, out_by, takes_out};

use items::Shelf;
use rules::{Cause, Move};
use values::Value;

// Whether a move for that cause takes its item out.
pub fn takes_out(cause: Cause) -> bool
    ensures { result ≡ takes_out cause }
{
    match cause {
        Cause::Fired | Cause::Lapsed | Cause::Struck => true,
        Cause::Asked => false,
    }
}

// Takes the item of one move out, if the move does so.
fn take_one<V: Value, S: Shelf<Of = V>>(shelf: &mut S, change: &Move<V>)
    ensures limit { S.Shelf.limit shelf.new ≡ S.Shelf.limit shelf.old }
    ensures items { S.Shelf.items shelf.new ≡ out_by V.Ord.cmp change.now (S.Shelf.items shelf.old) }
{
    if takes_out(change.cause) {
        shelf.remove(&change.item);
    }
}

// Puts the item of one move in, if the move asks for it.
fn ask_one<V: Value, S: Shelf<Of = V>>(shelf: &mut S, change: &Move<V>)
    requires room { length (in_by V.Ord.cmp change.now (S.Shelf.items shelf.old)) ≤ S.Shelf.limit shelf.old }
    ensures limit { S.Shelf.limit shelf.new ≡ S.Shelf.limit shelf.old }
    ensures items { S.Shelf.items shelf.new ≡ in_by V.Ord.cmp change.now (S.Shelf.items shelf.old) }
{
    if !takes_out(change.cause) {
        shelf.add(change.item);
    }
}

// Takes out what leaves or is struck.
fn take_all<V: Value, S: Shelf<Of = V>>(shelf: &mut S, moves: &[Move<V>])
    ensures limit { S.Shelf.limit shelf.new ≡ S.Shelf.limit shelf.old }
    ensures items { S.Shelf.items shelf.new ≡ kept (λ x. not (taken (value_kind V.Value) moves.now x)) (S.Shelf.items shelf.old) }
{
    for change in moves {
        take_one(shelf, change);
    }
}

// Puts in what is asked for.
fn ask_all<V: Value, S: Shelf<Of = V>>(shelf: &mut S, moves: &[Move<V>])
    requires room { length (with_all (item_order V.Ord.cmp) (S.Shelf.items shelf.old) (moved Asked moves.now)) ≤ S.Shelf.limit shelf.old }
    ensures limit { S.Shelf.limit shelf.new ≡ S.Shelf.limit shelf.old }
    ensures items { S.Shelf.items shelf.new ≡ with_all (item_order V.Ord.cmp) (S.Shelf.items shelf.old) (moved Asked moves.now) }
{
    for change in moves {
        ask_one(shelf, change);
    }
}

// What is taken out goes first, and then what is asked for comes in, so that an item of both stays.
fn take_and_ask<V: Value, S: Shelf<Of = V>>(shelf: &mut S, moves: &[Move<V>])
    requires room { length (with_all (item_order V.Ord.cmp) (kept (λ x. not (taken (value_kind V.Value) moves.now x)) (S.Shelf.items shelf.old)) (moved Asked moves.now)) ≤ S.Shelf.limit shelf.old }
    ensures limit { S.Shelf.limit shelf.new ≡ S.Shelf.limit shelf.old }
    ensures items { S.Shelf.items shelf.new ≡ with_all (item_order V.Ord.cmp) (kept (λ x. not (taken (value_kind V.Value) moves.now x)) (S.Shelf.items shelf.old)) (moved Asked moves.now) }
{
    take_all(shelf, moves);
    ask_all(shelf, moves);
}

// Makes all changes; the new set is within the limit.
pub fn apply<V: Value, S: Shelf<Of = V>>(shelf: &mut S, moves: &[Move<V>])
    requires room { length (new_set (value_kind V.Value) moves.now (S.Shelf.items shelf.old)) ≤ S.Shelf.limit shelf.old }
    ensures limit { S.Shelf.limit shelf.new ≡ S.Shelf.limit shelf.old }
    ensures items { S.Shelf.items shelf.new ≡ new_set (value_kind V.Value) moves.now (S.Shelf.items shelf.old) }
{
    take_and_ask(shelf, moves);
}

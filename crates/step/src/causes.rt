// For what cause an item is moved.
ghost use Rattle.std.specs.Prelude.{◌≡◌};
ghost use Rattle.rules.specs.Kinds.{value_kind};
ghost use Rattle.rules.specs.Step.{moved_by, taken};
ghost use Rattle.step.specs.Sets.{is_for, takes_item};

use crate::changes::takes_out;
use items::Item;
use rules::{Cause, Move};
use values::Value;

// Whether the move moves the item for that cause.
fn is_for<V: Value>(cause: Cause, item: &Item<V>, change: &Move<V>) -> bool
    ensures { result ≡ is_for V.Ord.cmp cause item.now change.now }
{
    change.cause == cause && *item == change.item
}

// Whether one of the moves moves the item for that cause.
pub fn is_moved<V: Value>(cause: Cause, item: &Item<V>, moves: &[Move<V>]) -> bool
    ensures { result ≡ moved_by (value_kind V.Value) cause moves.now item.now }
{
    moves.iter().any(|change| is_for(cause, item, change))
}

// Whether the move takes the item out.
fn takes_item<V: Value>(item: &Item<V>, change: &Move<V>) -> bool
    ensures { result ≡ takes_item V.Ord.cmp item.now change.now }
{
    takes_out(change.cause) && *item == change.item
}

// Whether one of the moves takes the item out.
pub fn is_taken<V: Value>(item: &Item<V>, moves: &[Move<V>]) -> bool
    ensures { result ≡ taken (value_kind V.Value) moves.now item.now }
{
    moves.iter().any(|change| takes_item(item, change))
}

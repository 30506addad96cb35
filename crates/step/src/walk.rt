// Collecting what the items of a shelf give at an event, in their order, without visiting those that the event cannot touch.
ghost use Rattle.std.specs.Prelude.{◌≡◌, None};
ghost use Rattle.firing.specs.Effects.{item_gives};
ghost use Rattle.buffers.specs.Places.{fill, places_after};
ghost use Rattle.items.specs.Ascending.{kept};
ghost use Rattle.items.specs.Items.{wanted, named};
ghost use Rattle.rules.specs.Kinds.{value_kind};
ghost use Rattle.std.specs.List.{flat_map};

use crate::scope::Scope;
use crate::scopes::scope_of;
use firing::{Effect, SheetEvent, item_into};
use items::Shelf;
use values::Value;

// What the items of a name give, or of a name and a first value, in their order.
fn listed_into<V: Value, X: Copy, E: Effect<V, X>, S: Shelf<Of = V>>(
    effect: &E,
    at: &SheetEvent<'_, '_, V>,
    shelf: &S,
    name: u8,
    first: Option<V>,
    out: &mut [X],
    place: u128,
) -> u128
    ensures out { out.new ≡ fill out.old place (flat_map (item_gives (E.Effect.of_entry effect.now at.now) (value_kind V.Value) at.now (S.Shelf.items shelf.now) (E.Effect.of_item effect.now at.now)) (kept (wanted V.Ord.cmp name first None) (S.Shelf.items shelf.now))) }
    ensures place { result ≡ places_after place (flat_map (item_gives (E.Effect.of_entry effect.now at.now) (value_kind V.Value) at.now (S.Shelf.items shelf.now) (E.Effect.of_item effect.now at.now)) (kept (wanted V.Ord.cmp name first None) (S.Shelf.items shelf.now))) }
{
    let mut after = place;
    let mut above = None;
    while let Some(item) = shelf.next(name, first, above) {
        after = item_into(effect, at, shelf, &item, out, after);
        above = Some(item);
    }
    after
}

// What all items of a name give; only those in the event's scope are visited.
fn name_into<V: Value, X: Copy, E: Effect<V, X>, S: Shelf<Of = V>>(
    effect: &E,
    at: &SheetEvent<'_, '_, V>,
    shelf: &S,
    name: u8,
    out: &mut [X],
    place: u128,
) -> u128
    ensures out { out.new ≡ fill out.old place (flat_map (item_gives (E.Effect.of_entry effect.now at.now) (value_kind V.Value) at.now (S.Shelf.items shelf.now) (E.Effect.of_item effect.now at.now)) (kept (named name) (S.Shelf.items shelf.now))) }
    ensures place { result ≡ places_after place (flat_map (item_gives (E.Effect.of_entry effect.now at.now) (value_kind V.Value) at.now (S.Shelf.items shelf.now) (E.Effect.of_item effect.now at.now)) (kept (named name) (S.Shelf.items shelf.now))) }
{
    match scope_of(at, name) {
        Scope::Every => listed_into(effect, at, shelf, name, None, out, place),
        Scope::Only(value) => listed_into(effect, at, shelf, name, Some(value), out, place),
        Scope::Nothing => place,
    }
}

// What all items give, name after name.
pub fn all_into<V: Value, X: Copy, E: Effect<V, X>, S: Shelf<Of = V>>(
    effect: &E,
    at: &SheetEvent<'_, '_, V>,
    shelf: &S,
    out: &mut [X],
) -> u128
    ensures out { out.new ≡ fill out.old 0 (flat_map (item_gives (E.Effect.of_entry effect.now at.now) (value_kind V.Value) at.now (S.Shelf.items shelf.now) (E.Effect.of_item effect.now at.now)) (S.Shelf.items shelf.now)) }
    ensures place { result ≡ places_after 0 (flat_map (item_gives (E.Effect.of_entry effect.now at.now) (value_kind V.Value) at.now (S.Shelf.items shelf.now) (E.Effect.of_item effect.now at.now)) (S.Shelf.items shelf.now)) }
{
    let mut after = 0;
    for name in 0..at.states.len() {
        after = name_into(effect, at, shelf, name as u8, out, after);
    }
    after
}

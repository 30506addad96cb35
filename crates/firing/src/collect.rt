// Collecting what an item gives at an event into a lent buffer, from a place on; each function answers the place after.
ghost use Rattle.std.specs.Prelude.{◌≡◌};
ghost use Rattle.rules.specs.Kinds.{value_kind};
ghost use Rattle.rules.specs.Step.{fired_rows};
ghost use Rattle.sheets.specs.Words.{present};
ghost use Rattle.std.specs.List.{flat_map};
ghost use Rattle.firing.specs.At.{event_in, sheet_in};
ghost use Rattle.firing.specs.Effects.{if_there, is_filled, item_gives, numbered, row_gives, row_gives_if};
ghost use Rattle.buffers.specs.Places.{fill, places_after};

use crate::at::SheetEvent;
use crate::effect::Effect;
use buffers::put_if;
use items::{Item, Shelf};
use sheets::{Entry, Row};
use values::Value;

// What an entry gives, where there is one.
fn entry_into<V: Value, X: Copy, E: Effect<V, X>>(
    effect: &E,
    at: &SheetEvent<'_, '_, V>,
    item: &Item<V>,
    row: &Row,
    number: u8,
    entry: Option<Entry>,
    out: &mut [X],
    place: u128,
) -> u128
    ensures out { out.new ≡ fill out.old place (if_there (E.Effect.of_entry effect.now at.now item.now row.now number) entry) }
    ensures place { result ≡ places_after place (if_there (E.Effect.of_entry effect.now at.now item.now row.now number) entry) }
{
    match entry {
        Some(entry) => put_if(out, place, effect.of_entry(at, item, row, number, entry)),
        None => place,
    }
}

// What the entries of a row give.
fn entries_into<V: Value, X: Copy, E: Effect<V, X>>(
    effect: &E,
    at: &SheetEvent<'_, '_, V>,
    item: &Item<V>,
    row: &Row,
    number: u8,
    entries: &[Option<Entry>],
    out: &mut [X],
    place: u128,
) -> u128
    ensures out { out.new ≡ fill out.old place (flat_map (E.Effect.of_entry effect.now at.now item.now row.now number) (present entries.now)) }
    ensures place { result ≡ places_after place (flat_map (E.Effect.of_entry effect.now at.now item.now row.now number) (present entries.now)) }
{
    let mut after = place;
    for entry in entries {
        after = entry_into(effect, at, item, row, number, *entry, out, after);
    }
    after
}

// What a row gives: nothing unless it fires.
fn row_into<V: Value, X: Copy, E: Effect<V, X>, S: Shelf<Of = V>>(
    effect: &E,
    at: &SheetEvent<'_, '_, V>,
    shelf: &S,
    item: &Item<V>,
    row: &Row,
    number: u8,
    out: &mut [X],
    place: u128,
) -> u128
    ensures out { out.new ≡ fill out.old place (row_gives_if (E.Effect.of_entry effect.now at.now) (value_kind V.Value) at.now (S.Shelf.items shelf.now) item.now (numbered number row.now)) }
    ensures place { result ≡ places_after place (row_gives_if (E.Effect.of_entry effect.now at.now) (value_kind V.Value) at.now (S.Shelf.items shelf.now) item.now (numbered number row.now)) }
{
    if at.row_fires(shelf, item, row) {
        entries_into(effect, at, item, row, number, &row.entries, out, place)
    } else {
        place
    }
}

// What the rows of the sheet give for the item.
fn rows_into<V: Value, X: Copy, E: Effect<V, X>, S: Shelf<Of = V>>(
    effect: &E,
    at: &SheetEvent<'_, '_, V>,
    shelf: &S,
    item: &Item<V>,
    out: &mut [X],
    place: u128,
) -> u128
    ensures out { out.new ≡ fill out.old place (flat_map (row_gives (E.Effect.of_entry effect.now at.now) item.now) (fired_rows (value_kind V.Value) (sheet_in at.now) (S.Shelf.items shelf.now) (event_in at.now) item.now)) }
    ensures place { result ≡ places_after place (flat_map (row_gives (E.Effect.of_entry effect.now at.now) item.now) (fired_rows (value_kind V.Value) (sheet_in at.now) (S.Shelf.items shelf.now) (event_in at.now) item.now)) }
{
    let mut after = place;
    for (i, row) in at.rows.iter().enumerate() {
        after = row_into(effect, at, shelf, item, row, i as u8, out, after);
    }
    after
}

// Whether a row fires for the item.
fn any_fires<V: Value, S: Shelf<Of = V>>(
    at: &SheetEvent<'_, '_, V>,
    shelf: &S,
    item: &Item<V>,
) -> bool
    ensures { result ≡ is_filled (fired_rows (value_kind V.Value) (sheet_in at.now) (S.Shelf.items shelf.now) (event_in at.now) item.now) }
{
    at.rows.iter().any(|row| at.row_fires(shelf, item, row))
}

// What the item gives: first itself, by whether a row fires, and then its fired rows in order.
pub fn item_into<V: Value, X: Copy, E: Effect<V, X>, S: Shelf<Of = V>>(
    effect: &E,
    at: &SheetEvent<'_, '_, V>,
    shelf: &S,
    item: &Item<V>,
    out: &mut [X],
    place: u128,
) -> u128
    ensures out { out.new ≡ fill out.old place (item_gives (E.Effect.of_entry effect.now at.now) (value_kind V.Value) at.now (S.Shelf.items shelf.now) (E.Effect.of_item effect.now at.now) item.now) }
    ensures place { result ≡ places_after place (item_gives (E.Effect.of_entry effect.now at.now) (value_kind V.Value) at.now (S.Shelf.items shelf.now) (E.Effect.of_item effect.now at.now) item.now) }
{
    let fired = any_fires(at, shelf, item);
    let after = put_if(out, place, effect.of_item(at, item, fired));
    rows_into(effect, at, shelf, item, out, after)
}

// The moves and the findings of one item at an event, put into a lent buffer from a place on; the place after is answered.
ghost use Rattle.std.specs.Prelude.{◌≡◌, map};
ghost use Rattle.rules.specs.Kinds.{value_kind};
ghost use Rattle.rules.specs.Step.{item_faults, item_moves, numbered_as};
ghost use Rattle.firing.specs.At.{event_in, sheet_in};
ghost use Rattle.buffers.specs.Places.{fill, places_after};

use crate::at::SheetEvent;
use crate::collect::item_into;
use crate::effects::{Findings, Moves};
use items::{Item, Shelf};
use rules::{Finding, Move};
use values::Value;

// The item's leaving, then the asks and strikes of its fired rows.
pub fn item_moves<V: Value, S: Shelf<Of = V>>(
    at: &SheetEvent<'_, '_, V>,
    shelf: &S,
    item: &Item<V>,
    out: &mut [Move<V>],
    place: u128,
) -> u128
    ensures out { out.new ≡ fill out.old place (item_moves (value_kind V.Value) (sheet_in at.now) (S.Shelf.items shelf.now) (event_in at.now) item.now) }
    ensures place { result ≡ places_after place (item_moves (value_kind V.Value) (sheet_in at.now) (S.Shelf.items shelf.now) (event_in at.now) item.now) }
{
    item_into(&Moves, at, shelf, item, out, place)
}

// The findings of the item at the event of that number.
pub fn item_findings<V: Value, S: Shelf<Of = V>>(
    at: &SheetEvent<'_, '_, V>,
    number: u32,
    shelf: &S,
    item: &Item<V>,
    out: &mut [Finding<V>],
    place: u128,
) -> u128
    ensures out { out.new ≡ fill out.old place (map (numbered_as number) (item_faults (value_kind V.Value) (sheet_in at.now) (S.Shelf.items shelf.now) (event_in at.now) item.now)) }
    ensures place { result ≡ places_after place (map (numbered_as number) (item_faults (value_kind V.Value) (sheet_in at.now) (S.Shelf.items shelf.now) (event_in at.now) item.now)) }
{
    item_into(&Findings { event: number }, at, shelf, item, out, place)
}

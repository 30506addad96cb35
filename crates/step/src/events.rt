// The moves and the findings of an event, as far as they fit into a lent buffer, and their numbers.
ghost use Rattle.std.specs.Prelude.{◌≡◌, ◌≤◌, map, length, take};
ghost use Rattle.firing.specs.At.{event_in, sheet_in};
ghost use Rattle.buffers.specs.Places.{capped, fill};
ghost use Rattle.rules.specs.Kinds.{value_kind};
ghost use Rattle.rules.specs.Step.{faults_at, moves_at, numbered_as, set_after};
ghost use Rattle.sheets.specs.Tables.{kind_of};

use crate::changes::apply;
use crate::walk::all_into;
use firing::{Findings, Moves, SheetEvent};
use items::Shelf;
use rules::{Finding, Move};
use sheets::{EventKind, kind_of};
use values::Value;

// Whether the sheet watches the event kind.
fn is_watched(kinds: &[EventKind], kind: u8) -> bool
    ensures { result ≡ (kind_of kinds.now kind).watched }
{
    kind_of(kinds, kind).watched
}

// The moves: the front of the buffer holds them as far as it reaches, and their number is answered, counted up to the largest that a u128 has.
pub fn event_moves<V: Value, S: Shelf<Of = V>>(
    at: &SheetEvent<'_, '_, V>,
    shelf: &S,
    out: &mut [Move<V>],
) -> u128
    ensures out { out.new ≡ fill out.old 0 (moves_at (value_kind V.Value) (sheet_in at.now) (S.Shelf.items shelf.now) (event_in at.now)) }
    ensures count { result ≡ capped (length (moves_at (value_kind V.Value) (sheet_in at.now) (S.Shelf.items shelf.now) (event_in at.now))) }
{
    if is_watched(at.kinds, at.event.kind) {
        all_into(&Moves, at, shelf, out)
    } else {
        0
    }
}

// The findings of the event of that number, likewise.
pub fn event_findings<V: Value, S: Shelf<Of = V>>(
    at: &SheetEvent<'_, '_, V>,
    number: u32,
    shelf: &S,
    out: &mut [Finding<V>],
) -> u128
    ensures out { out.new ≡ fill out.old 0 (map (numbered_as number) (faults_at (value_kind V.Value) (sheet_in at.now) (S.Shelf.items shelf.now) (event_in at.now))) }
    ensures count { result ≡ capped (length (faults_at (value_kind V.Value) (sheet_in at.now) (S.Shelf.items shelf.now) (event_in at.now))) }
{
    if is_watched(at.kinds, at.event.kind) {
        all_into(&Findings { event: number }, at, shelf, out)
    } else {
        0
    }
}

// Makes the event's changes on the shelf, where the first `count` moves of the buffer are those of the event and the set afterwards is within the limit.
pub fn apply_event<V: Value, S: Shelf<Of = V>>(
    at: &SheetEvent<'_, '_, V>,
    shelf: &mut S,
    buffer: &[Move<V>],
    count: usize,
)
    requires within { count ≤ length buffer.now }
    requires moves { take count buffer.now ≡ moves_at (value_kind V.Value) (sheet_in at.now) (S.Shelf.items shelf.old) (event_in at.now) }
    requires room { length (set_after (value_kind V.Value) (sheet_in at.now) (S.Shelf.items shelf.old) (event_in at.now)) ≤ S.Shelf.limit shelf.old }
    ensures limit { S.Shelf.limit shelf.new ≡ S.Shelf.limit shelf.old }
    ensures items { S.Shelf.items shelf.new ≡ set_after (value_kind V.Value) (sheet_in at.now) (S.Shelf.items shelf.old) (event_in at.now) }
{
    apply(shelf, &buffer[0..count]);
}

// Taking an event: its moves are listed and judged, and the book changes if nothing is refused.
ghost use Rattle.std.specs.Prelude.{◌≡◌, ◌+◌, ◌<◌, ◌≤◌, map, length, take, Some, None, Ok, Err};
ghost use Rattle.firing.specs.At.{event_in, sheet_in};
ghost use Rattle.buffers.specs.Places.{capped, fill};
ghost use Rattle.rules.specs.Book.{Alike, findings_at, took};
ghost use Rattle.rules.specs.Kinds.{value_kind};
ghost use Rattle.rules.specs.Step.{faults_at, moves_at, numbered_as, set_after};
ghost use Rattle.refusals.specs.declared.refusal.Refusal.{Refusal};
ghost use Rattle.books.specs.Puts.{Came, late_at};
ghost use Rattle.books.specs.View.{book_view};

use crate::book::Book;
use crate::sizes::Sizes;
use counting::count_moves;
use firing::SheetEvent;
use items::Shelf;
use judging::judge_late;
use refusals::Refusal;
use rules::{Accepted, Finding, Move};
use step::{apply_event, event_findings, event_moves};
use values::Value;

// How many findings an event makes, counted up to the largest that a u128 has.
fn count_findings<V: Value, S: Shelf<Of = V>>(
    at: &SheetEvent<'_, '_, V>,
    number: u32,
    shelf: &S,
) -> u128
    ensures { result ≡ capped (length (faults_at (value_kind V.Value) (sheet_in at.now) (S.Shelf.items shelf.now) (event_in at.now))) }
{
    let mut nothing: [Finding<V>; 0] = [];
    event_findings(at, number, shelf, &mut nothing)
}

// The number of the next event.
fn next_number(accepted: u32) -> u32
    requires { accepted < 1000000 }
    ensures { result ≡ accepted + 1 }
{
    accepted + 1
}

// Writes the moves of an event as far as they fit, and counts them and its findings.
fn survey<V: Value, S: Shelf<Of = V>>(
    at: &SheetEvent<'_, '_, V>,
    number: u32,
    shelf: &S,
    moves: &mut [Move<V>],
) -> Sizes
    ensures out { moves.new ≡ fill moves.old 0 (moves_at (value_kind V.Value) (sheet_in at.now) (S.Shelf.items shelf.now) (event_in at.now)) }
    ensures moved { result.moves ≡ capped (length (moves_at (value_kind V.Value) (sheet_in at.now) (S.Shelf.items shelf.now) (event_in at.now))) }
    ensures found { result.findings ≡ capped (length (faults_at (value_kind V.Value) (sheet_in at.now) (S.Shelf.items shelf.now) (event_in at.now))) }
{
    Sizes {
        moves: event_moves(at, shelf, moves),
        findings: count_findings(at, number, shelf),
    }
}

// Writes the findings of an event and makes its changes: conditions are read on the set as it is before.
fn write_and_apply<V: Value, S: Shelf<Of = V>>(
    at: &SheetEvent<'_, '_, V>,
    number: u32,
    shelf: &mut S,
    buffer: &[Move<V>],
    count: usize,
    findings: &mut [Finding<V>],
)
    requires within { count ≤ length buffer.now }
    requires moves { take count buffer.now ≡ moves_at (value_kind V.Value) (sheet_in at.now) (S.Shelf.items shelf.old) (event_in at.now) }
    requires room { length (set_after (value_kind V.Value) (sheet_in at.now) (S.Shelf.items shelf.old) (event_in at.now)) ≤ S.Shelf.limit shelf.old }
    ensures limit { S.Shelf.limit shelf.new ≡ S.Shelf.limit shelf.old }
    ensures items { S.Shelf.items shelf.new ≡ set_after (value_kind V.Value) (sheet_in at.now) (S.Shelf.items shelf.old) (event_in at.now) }
    ensures findings { findings.new ≡ fill findings.old 0 (map (numbered_as number) (faults_at (value_kind V.Value) (sheet_in at.now) (S.Shelf.items shelf.old) (event_in at.now))) }
{
    event_findings(at, number, shelf, findings);
    apply_event(at, shelf, buffer, count);
}

impl<S: Shelf> Book<S> {
    // Takes an event, whose moves are the first ones of the buffer, into the book, and writes its findings.
    fn accept(
        &mut self,
        at: &SheetEvent<'_, '_, S::Of>,
        buffer: &[Move<S::Of>],
        count: usize,
        findings: &mut [Finding<S::Of>],
    )
        requires more { self.old.accepted < 1000000 }
        requires within { count ≤ length buffer.now }
        requires moves { take count buffer.now ≡ moves_at (value_kind S.Of.Value) (sheet_in at.now) (S.Shelf.items self.old.shelf) (event_in at.now) }
        requires room { length (set_after (value_kind S.Of.Value) (sheet_in at.now) (S.Shelf.items self.old.shelf) (event_in at.now)) ≤ S.Shelf.limit self.old.shelf }
        ensures book { Alike (book_view S.Shelf.items S.Shelf.limit self.new) (took (value_kind S.Of.Value) (sheet_in at.now) (event_in at.now) (book_view S.Shelf.items S.Shelf.limit self.old)) }
        ensures findings { findings.new ≡ fill findings.old 0 (findings_at (value_kind S.Of.Value) (sheet_in at.now) (self.old.accepted + 1) (S.Shelf.items self.old.shelf) (event_in at.now)) }
    {
        let number = next_number(self.accepted);
        count_moves(&mut self.tallies, &self.shelf, &buffer[0..count]);
        write_and_apply(at, number, &mut self.shelf, buffer, count, findings);
        self.accepted = number;
    }

    // Takes an event that is not refused at once; its record stands at that place.
    pub(crate) fn take(
        &mut self,
        place: usize,
        at: &SheetEvent<'_, '_, S::Of>,
        moves: &mut [Move<S::Of>],
        findings: &mut [Finding<S::Of>],
    ) -> Result<Accepted, Refusal>
        requires more { self.old.accepted < 1000000 }
        ensures came { Came (late_at (value_kind S.Of.Value) (sheet_in at.now) place (book_view S.Shelf.items S.Shelf.limit self.old) (event_in at.now) moves.old findings.old) result moves.new findings.new (book_view S.Shelf.items S.Shelf.limit self.new) }
    {
        let sizes = survey(at, self.accepted + 1, &self.shelf, moves);
        judge_late(
            &self.shelf,
            place,
            moves,
            sizes.moves,
            findings.len(),
            sizes.findings,
        )?;
        self.accept(at, moves, sizes.moves as usize, findings);
        Ok(Accepted {
            moves: sizes.moves as usize,
            findings: sizes.findings as usize,
        })
    }
}

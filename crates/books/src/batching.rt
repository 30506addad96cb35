// Putting the records of a batch, one after the other.
ghost use Rattle.std.specs.Prelude.{◌≡◌, ◌+◌, ◌<◌, ◌≤◌, true, length, take, drop, IfOk, None};
ghost use Rattle.rules.specs.Book.{Batching, Served, batch_from, put_at};
ghost use Rattle.rules.specs.Kinds.{value_kind};
ghost use Rattle.rules.specs.Records.{records_at};
ghost use Rattle.sheets.specs.View.{view_of};
ghost use Rattle.books.specs.Batches.{BatchRight, SameAs, ended_by, left_by};
ghost use Rattle.books.specs.Puts.{Came};
ghost use Rattle.books.specs.View.{book_view};

use crate::book::Book;
use items::Shelf;
use records::{Event, Reader};
use refusals::Refusal;
use rules::{Accepted, Batched, Finding, Move, PhaseCall};
use sheets::Sheet;

// Where the next record begins.
fn record_start(reader: &Reader<'_>) -> usize
    ensures { result ≡ reader.now.place }
{
    reader.place()
}

impl<S: Shelf> Book<S> {
    // Puts an event, with what is left of the findings' buffer from a place on.
    fn put_rest(
        &mut self,
        place: usize,
        sheet: &Sheet<'_, S::Of>,
        event: &Event<S::Of>,
        moves: &mut [Move<S::Of>],
        findings: &mut [Finding<S::Of>],
        from: usize,
    ) -> Result<Accepted, Refusal>
        requires within { from ≤ length findings.old }
        ensures front { take from findings.new ≡ take from findings.old }
        ensures came { Came (put_at (value_kind S.Of.Value) (view_of sheet.now) place (book_view S.Shelf.items S.Shelf.limit self.old) event.now moves.old (drop from findings.old)) result moves.new (drop from findings.new) (book_view S.Shelf.items S.Shelf.limit self.new) }
        ensures fits { IfOk result (λ a. from + a.findings ≤ length findings.old) }
    {
        self.put_at(place, sheet, event, moves, &mut findings[from..])
    }

    // Puts the records of a batch of which so much is done, up to its end or to the first refusal.
    fn put_records(
        &mut self,
        sheet: &Sheet<'_, S::Of>,
        reader: &mut Reader<'_>,
        moves: &mut [Move<S::Of>],
        findings: &mut [Finding<S::Of>],
        done: &mut Batched,
    ) -> Result<(), Refusal>
        requires { BatchRight self.old.accepted (length findings.old) done.old }
        ensures { SameAs (ended_by result (book_view S.Shelf.items S.Shelf.limit self.new) moves.new findings.new done.new) (left_by (value_kind S.Of.Value) (view_of sheet.now) (book_view S.Shelf.items S.Shelf.limit self.old) moves.old findings.old done.old (records_at S.Of.Value.reads reader.old.bytes.now reader.old.place)) }
    {
        let mut place = record_start(reader);
        while let Some(event) = reader.next::<S::Of>()? {
            let taken = self.put_rest(place, sheet, &event, moves, findings, done.findings)?;
            done.accepted += 1;
            done.findings += taken.findings;
            place = record_start(reader);
        }
        Ok(())
    }

    // Puts the records of a batch up to its end or to the first refusal.
    fn put_all(
        &mut self,
        sheet: &Sheet<'_, S::Of>,
        bytes: &[u8],
        moves: &mut [Move<S::Of>],
        findings: &mut [Finding<S::Of>],
    ) -> Batched
        ensures came { Came (batch_from (value_kind S.Of.Value) (view_of sheet.now) (book_view S.Shelf.items S.Shelf.limit self.old) moves.old findings.old (records_at S.Of.Value.reads bytes.now 0)) result moves.new findings.new (book_view S.Shelf.items S.Shelf.limit self.new) }
    {
        let mut reader = Reader::new(bytes);
        let mut done = Batched {
            accepted: 0,
            findings: 0,
            refusal: None,
        };
        let ended = self.put_records(sheet, &mut reader, moves, findings, &mut done);
        Batched {
            refusal: ended.err(),
            ..done
        }
    }

    // Puts each record of a batch, with the unfilled rest of the findings' buffer, and stops at the first refusal. What earlier records did stays.
    pub fn batch(
        &mut self,
        sheet: &Sheet<'_, S::Of>,
        bytes: &[u8],
        moves: &mut [Move<S::Of>],
        findings: &mut [Finding<S::Of>],
    ) -> Batched
        ensures served { Served (value_kind S.Of.Value) (view_of sheet.now) (book_view S.Shelf.items S.Shelf.limit self.old) (Batching bytes.now moves.old moves.new findings.old findings.new result) (book_view S.Shelf.items S.Shelf.limit self.new) }
    {
        let mut phase = self.phase;
        match phase.advance(PhaseCall::Take) {
            Ok(()) => self.put_all(sheet, bytes, moves, findings),
            Err(refusal) => Batched {
                accepted: 0,
                findings: 0,
                refusal: Some(refusal),
            },
        }
    }
}

// Putting one event.
ghost use Rattle.rules.specs.Book.{Putting, Served, put_at};
ghost use Rattle.rules.specs.Kinds.{value_kind};
ghost use Rattle.sheets.specs.View.{view_of};
ghost use Rattle.books.specs.Puts.{Came};
ghost use Rattle.books.specs.View.{book_view};

use crate::book::Book;
use firing::SheetEvent;
use items::Shelf;
use judging::judge_early;
use records::Event;
use refusals::Refusal;
use rules::{Accepted, Finding, Move};
use sheets::Sheet;

impl<S: Shelf> Book<S> {
    // Puts an event whose record stands at that place.
    pub(crate) fn put_at(
        &mut self,
        place: usize,
        sheet: &Sheet<'_, S::Of>,
        event: &Event<S::Of>,
        moves: &mut [Move<S::Of>],
        findings: &mut [Finding<S::Of>],
    ) -> Result<Accepted, Refusal>
        ensures came { Came (put_at (value_kind S.Of.Value) (view_of sheet.now) place (book_view S.Shelf.items S.Shelf.limit self.old) event.now moves.old findings.old) result moves.new findings.new (book_view S.Shelf.items S.Shelf.limit self.new) }
    {
        judge_early(place, self.phase, event.kind, self.accepted)?;
        self.take(place, &SheetEvent::new(sheet, event), moves, findings)
    }

    // Takes one event. The moves that it makes fill the front of one buffer, its findings that of another, and their numbers are answered.
    pub fn put(
        &mut self,
        sheet: &Sheet<'_, S::Of>,
        event: &Event<S::Of>,
        moves: &mut [Move<S::Of>],
        findings: &mut [Finding<S::Of>],
    ) -> Result<Accepted, Refusal>
        ensures served { Served (value_kind S.Of.Value) (view_of sheet.now) (book_view S.Shelf.items S.Shelf.limit self.old) (Putting event.now moves.old moves.new findings.old findings.new result) (book_view S.Shelf.items S.Shelf.limit self.new) }
    {
        self.put_at(0, sheet, event, moves, findings)
    }
}

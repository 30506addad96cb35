// Ending a book.
ghost use Rattle.std.specs.Prelude.{◌≡◌, length};
ghost use Rattle.buffers.specs.Places.{capped};
ghost use Rattle.rules.specs.Book.{Ending, Served};
ghost use Rattle.rules.specs.Kinds.{value_kind};
ghost use Rattle.sheets.specs.View.{view_of};
ghost use Rattle.books.specs.Ends.{hot_by};
ghost use Rattle.books.specs.View.{book_view};

use crate::book::Book;
use crate::closing::Closing;
use items::Shelf;
use judging::judge_end;
use listing::listed_into;
use refusals::Refusal;
use rules::{Finding, PhaseCall};
use sheets::Sheet;
use values::Value;

// How many items are hot, counted up to the largest that a u128 has.
fn count_hot<V: Value, S: Shelf<Of = V>>(closing: &Closing<'_>, shelf: &S) -> u128
    ensures { result ≡ capped (length (hot_by closing.now.states.now closing.now.accepted (S.Shelf.items shelf.now))) }
{
    let mut nothing: [Finding<V>; 0] = [];
    listed_into(closing, shelf, &mut nothing)
}

impl<S: Shelf> Book<S> {
    // Ends an open book: each hot item is a finding, and the shelf stays as it is. Answers how many there are.
    pub fn end(
        &mut self,
        sheet: &Sheet<'_, S::Of>,
        findings: &mut [Finding<S::Of>],
    ) -> Result<usize, Refusal>
        ensures served { Served (value_kind S.Of.Value) (view_of sheet.now) (book_view S.Shelf.items S.Shelf.limit self.old) (Ending findings.old findings.new result) (book_view S.Shelf.items S.Shelf.limit self.new) }
    {
        let closing = Closing {
            accepted: self.accepted,
            states: sheet.states(),
        };
        let count = count_hot(&closing, &self.shelf);
        judge_end(self.phase, findings.len(), count)?;
        let _ = listed_into(&closing, &self.shelf, findings);
        let _ = self.phase.advance(PhaseCall::End);
        Ok(count as usize)
    }
}

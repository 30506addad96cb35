// Opening a book.
ghost use Rattle.std.specs.Prelude.{◌≡◌, ◌≤◌, [], length};
ghost use Rattle.rules.specs.Book.{Opening, Served};
ghost use Rattle.rules.specs.Kinds.{value_kind};
ghost use Rattle.rules.specs.Step.{how_many};
ghost use Rattle.rules.specs.declared.phase.Phase.TheVariants.{Blank};
ghost use Rattle.sheets.specs.View.{view_of};
ghost use Rattle.opening.specs.Starts.{is_init};
ghost use Rattle.books.specs.Opens.{Opened};
ghost use Rattle.books.specs.View.{book_view};

use crate::book::Book;
use items::Shelf;
use judging::judge_open;
use opening::{count_inits, count_starts, start_items};
use refusals::Refusal;
use rules::PhaseCall;
use sheets::{Sheet, State};

impl<S: Shelf> Book<S> {
    // Puts the init items in, counts them, and is open.
    fn start(&mut self, states: &[State])
        requires phase { self.old.phase ≡ Blank }
        requires empty { S.Shelf.items self.old.shelf ≡ [] }
        requires few { length states.now ≤ 32 }
        requires room { how_many is_init states.now ≤ S.Shelf.limit self.old.shelf }
        ensures opened { Opened (value_kind S.Of.Value) states.now (book_view S.Shelf.items S.Shelf.limit self.old) (book_view S.Shelf.items S.Shelf.limit self.new) }
    {
        start_items(&mut self.shelf, states);
        count_starts(&mut self.tallies, states);
        let _ = self.phase.advance(PhaseCall::Open);
    }

    // Opens a blank book on an empty shelf: the init items are put in.
    pub fn open(&mut self, sheet: &Sheet<'_, S::Of>) -> Result<(), Refusal>
        ensures served { Served (value_kind S.Of.Value) (view_of sheet.now) (book_view S.Shelf.items S.Shelf.limit self.old) (Opening result) (book_view S.Shelf.items S.Shelf.limit self.new) }
    {
        let states = sheet.states();
        judge_open(
            self.phase,
            self.shelf.count(),
            self.shelf.limit(),
            count_inits(states),
        )?;
        self.start(states);
        Ok(())
    }
}

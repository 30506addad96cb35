// What a book tells of itself.
ghost use Rattle.std.specs.Prelude.{◌≡◌};
ghost use Rattle.rules.specs.Book.{Listing, Served, Tallying};
ghost use Rattle.rules.specs.Kinds.{value_kind};
ghost use Rattle.sheets.specs.Tables.{SheetModel};
ghost use Rattle.books.specs.View.{book_view};

use crate::book::Book;
use items::{Item, Shelf, count_of};
use listing::list_items;
use refusals::Refusal;
use rules::Counts;

// The largest state name that is counted.
const LAST_NAME: u8 = 31;

impl<S: Shelf> Book<S> {
    // Writes the open items in order as far as the room reaches, and answers how many there are.
    pub fn list(&self, room: &mut [Item<S::Of>]) -> usize
        ensures { (s : SheetModel S.Of) → Served (value_kind S.Of.Value) s (book_view S.Shelf.items S.Shelf.limit self.now) (Listing room.old room.new result) (book_view S.Shelf.items S.Shelf.limit self.now) }
    {
        list_items(&self.shelf, room)
    }

    // The seven counts of a state name.
    pub fn tally(&self, name: u8) -> Result<Counts, Refusal>
        ensures { (s : SheetModel S.Of) → Served (value_kind S.Of.Value) s (book_view S.Shelf.items S.Shelf.limit self.now) (Tallying name result) (book_view S.Shelf.items S.Shelf.limit self.now) }
    {
        if name > LAST_NAME {
            return Err(Refusal::UnknownName);
        }
        Ok(Counts {
            kept: self.tallies[usize::from(name)],
            open: count_of(&self.shelf, name) as u128,
        })
    }
}

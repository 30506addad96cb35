// A new book.
ghost use Rattle.std.specs.Prelude.{◌≡◌, replicate};
ghost use Rattle.rules.specs.Tallies.{no_tally};
ghost use Rattle.rules.specs.Book.{Alike, made_book};
ghost use Rattle.books.specs.View.{book_view};

use crate::book::Book;
use items::Shelf;
use rules::{Phase, Tally};

// Nothing counted for any name.
fn no_tallies() -> [Tally; 32]
    ensures { result ≡ replicate 32 no_tally }
{
    [Tally::default(); 32]
}

impl<S: Shelf> Book<S> {
    // A blank book on a shelf, which may hold items.
    pub fn new(shelf: S) -> Self
        ensures made { Alike (book_view S.Shelf.items S.Shelf.limit result) (made_book (S.Shelf.items shelf) (S.Shelf.limit shelf)) }
    {
        Book {
            phase: Phase::Blank,
            accepted: 0,
            tallies: no_tallies(),
            shelf,
        }
    }
}

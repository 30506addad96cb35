// Comparing two books.
ghost use Rattle.std.specs.Prelude.{◌≡◌, true, length};
ghost use Rattle.rules.specs.Book.{Agreeing};
ghost use Rattle.rules.specs.Kinds.{value_kind};
ghost use Rattle.rules.specs.Law.{Law};
ghost use Rattle.books.specs.View.{book_view};

use crate::book::Book;
use items::Shelf;
use listing::same_items;
use rules::Tally;

// Whether the tallies of each name are the same.
fn same_tallies(left: &[Tally; 32], other: &[Tally; 32]) -> bool
    ensures same { result ≡ true → left.now ≡ other.now }
    ensures differ { left.now ≡ other.now → result ≡ true }
    ensures left { length left.now ≡ 32 }
    ensures other { length other.now ≡ 32 }
{
    left == other
}

impl<S: Shelf> Book<S> {
    // Whether two books have the same open items and the same seven counts of each name. What is promised besides, of every use of books on these shelves, is the law.
    pub fn compare<T: Shelf<Of = S::Of>>(&self, other: &Book<T>) -> bool
        ensures agree { result ≡ true → Agreeing (book_view S.Shelf.items S.Shelf.limit self.now) (book_view T.Shelf.items T.Shelf.limit other.now) }
        ensures differ { Agreeing (book_view S.Shelf.items S.Shelf.limit self.now) (book_view T.Shelf.items T.Shelf.limit other.now) → result ≡ true }
        ensures law { Law (value_kind S.Of.Value) (book_view S.Shelf.items S.Shelf.limit) (book_view T.Shelf.items T.Shelf.limit) }
    {
        same_items(&self.shelf, &other.shelf) && same_tallies(&self.tallies, &other.tallies)
    }
}

// One whole day of a book.
ghost use Rattle.sheets.specs.View.{view_of};
ghost use Rattle.rules.specs.Kinds.{value_kind};
ghost use Rattle.books.specs.Days.{DayLaw, day_turns};
ghost use Rattle.books.specs.View.{book_view};

use crate::book::Book;
use crate::day::Day;
use items::Shelf;
use rules::{Finding, Move};
use sheets::Sheet;

// Makes a book on a shelf, opens it, puts a batch and ends it. What came back is a history of the book, and the law is shown of it.
pub fn whole_day<S: Shelf>(
    shelf: S,
    sheet: &Sheet<'_, S::Of>,
    bytes: &[u8],
    moves: &mut [Move<S::Of>],
    findings: &mut [Finding<S::Of>],
    closing: &mut [Finding<S::Of>],
) -> Day<S>
    ensures law { DayLaw (value_kind S.Of.Value) (view_of sheet.now) (book_view S.Shelf.items S.Shelf.limit) (S.Shelf.items shelf) (S.Shelf.limit shelf) (day_turns bytes.now moves.old moves.new findings.old findings.new closing.old closing.new result.opened result.batched result.ended) result.book }
{
    let mut book = Book::new(shelf);
    let opened = book.open(sheet);
    let batched = book.batch(sheet, bytes, moves, findings);
    let ended = book.end(sheet, closing);
    Day {
        book,
        opened,
        batched,
        ended,
    }
}

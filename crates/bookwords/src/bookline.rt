// The words of a line about books.
ghost use Rattle.std.specs.Prelude.{◌≡◌, true, false, ◌||◌, Some, is_some};
ghost use Rattle.scripts.specs.Lines.{texts};
ghost use Rattle.bookwords.specs.BookLines.{is_long, is_short, short_line};

use crate::counted::{compare, end, list, open, tally};
use crate::events::{batch, deliver, put};
use crate::makes::{book, hold};
use booklines::BookLine;
use scripts::{Misfit, ScriptValue};
use std::alloc::Global;

// A line about books that has neither an item nor events, if the word begins one.
fn short_line<V: Copy>(word: &str, rest: &[&str]) -> Option<Result<BookLine<V>, Misfit>>
    ensures begins { is_some result ≡ is_short word.now }
    ensures line { is_short word.now ≡ true → result ≡ Some (short_line word.now (texts rest.now)) }
{
    match word {
        "book" => Some(book(rest)),
        "open" => Some(open(rest)),
        "end" => Some(end(rest)),
        "list" => Some(list(rest)),
        "tally" => Some(tally(rest)),
        "compare" => Some(compare(rest)),
        _ => None,
    }
}

// The line about books, by its first word and those behind it, if the word begins one.
pub fn book_line<V: ScriptValue>(
    heap: Global,
    word: &str,
    rest: &[&str],
) -> Option<Result<BookLine<V>, Misfit>>
    ensures begins { is_some result ≡ (is_long word.now || is_short word.now) }
    ensures short { is_long word.now ≡ false → is_short word.now ≡ true → result ≡ Some (short_line word.now (texts rest.now)) }
{
    match word {
        "hold" => Some(hold(heap, rest)),
        "put" => Some(put(heap, rest)),
        "batch" => Some(batch(heap, rest)),
        "deliver" => Some(deliver(heap, rest)),
        _ => short_line(word, rest),
    }
}

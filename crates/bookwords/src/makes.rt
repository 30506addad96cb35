// Books in a script: the make of the shelf, then how many cells it has; and the items that it holds from the start.
ghost use Rattle.std.specs.Prelude.{◌≡◌, IfOk, Ok};
ghost use Rattle.scripts.specs.Decimals.{byte_in, number_in, room_in};
ghost use Rattle.scripts.specs.Lines.{texts};
ghost use Rattle.booklines.specs.Makes.{make_in};
ghost use Rattle.bookwords.specs.BookLines.{book_in, book_words};

use booklines::{BookLine, Make};
use items::Item;
use scripts::{Misfit, ScriptValue, byte, room};
use std::alloc::Global;

// A book of a make and a number of cells.
fn book_of<V: Copy>(make: &str, cells: &str) -> Result<BookLine<V>, Misfit>
    ensures { result ≡ book_in (make_in make.now) (room_in (number_in cells.now)) }
{
    Ok(BookLine::Book {
        make: Make::try_from(make)?,
        cells: room(cells)?,
    })
}

// `book sorted CELLS`, `book indexed CELLS`
pub fn book<V: Copy>(words: &[&str]) -> Result<BookLine<V>, Misfit>
    ensures { result ≡ book_words (texts words.now) }
{
    match words {
        [make, cells] => book_of(make, cells),
        [_, _, ..] => Err(Misfit::TooManyWords),
        _ => Err(Misfit::MissingWord),
    }
}

// The item of a name and three values.
fn item_of<V: ScriptValue>(
    heap: Global,
    name: &str,
    first: &str,
    second: &str,
    third: &str,
) -> Result<Item<V>, Misfit>
    ensures { IfOk result (λ x. (byte_in (number_in name.now) ≡ Ok x.name) × (V.ScriptValue.meant first.now ≡ Ok x.first) × (V.ScriptValue.meant second.now ≡ Ok x.second) × (V.ScriptValue.meant third.now ≡ Ok x.third)) }
{
    Ok(Item {
        name: byte(name)?,
        first: V::of_word(heap, first)?,
        second: V::of_word(heap, second)?,
        third: V::of_word(heap, third)?,
    })
}

// `hold NAME V V V`
pub fn hold<V: ScriptValue>(heap: Global, words: &[&str]) -> Result<BookLine<V>, Misfit> {
    match words {
        [name, first, second, third] => Ok(BookLine::Hold {
            item: item_of(heap, name, first, second, third)?,
        }),
        [_, _, _, _, ..] => Err(Misfit::TooManyWords),
        _ => Err(Misfit::MissingWord),
    }
}

// Calls of a book that take one number, or none.
ghost use Rattle.std.specs.Prelude.{◌≡◌};
ghost use Rattle.scripts.specs.Lines.{texts};
ghost use Rattle.wordcounts.specs.Counts.{no_words, only_byte, only_word};
ghost use Rattle.bookwords.specs.BookLines.{compare_line, end_line, list_line, only_room, open_line, tally_line};

use booklines::BookLine;
use scripts::{Misfit, room};
use wordcounts::{no_words, only_byte, only_word};

// The number of places that the one word writes.
fn only_room(words: &[&str]) -> Result<usize, Misfit>
    ensures { result ≡ only_room (only_word (texts words.now)) }
{
    room(only_word(words)?)
}

// `open`
pub fn open<V: Copy>(words: &[&str]) -> Result<BookLine<V>, Misfit>
    ensures { result ≡ open_line (no_words (texts words.now)) }
{
    no_words(words)?;
    Ok(BookLine::Open)
}

// `compare`
pub fn compare<V: Copy>(words: &[&str]) -> Result<BookLine<V>, Misfit>
    ensures { result ≡ compare_line (no_words (texts words.now)) }
{
    no_words(words)?;
    Ok(BookLine::Compare)
}

// `end FINDINGS`
pub fn end<V: Copy>(words: &[&str]) -> Result<BookLine<V>, Misfit>
    ensures { result ≡ end_line (only_room (only_word (texts words.now))) }
{
    Ok(BookLine::End {
        findings: only_room(words)?,
    })
}

// `list ROOM`
pub fn list<V: Copy>(words: &[&str]) -> Result<BookLine<V>, Misfit>
    ensures { result ≡ list_line (only_room (only_word (texts words.now))) }
{
    Ok(BookLine::List {
        room: only_room(words)?,
    })
}

// `tally NAME`
pub fn tally<V: Copy>(words: &[&str]) -> Result<BookLine<V>, Misfit>
    ensures { result ≡ tally_line (only_byte (only_word (texts words.now))) }
{
    Ok(BookLine::Tally {
        name: only_byte(words)?,
    })
}

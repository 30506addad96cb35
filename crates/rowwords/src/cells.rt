// Cells in a script: the field's number, then what is wanted of it.
ghost use Rattle.std.specs.Prelude.{◌≡◌};
ghost use Rattle.rowwords.specs.Cells.{any_in, cell_in, want_in};
ghost use Rattle.wordcounts.specs.Counts.{no_words};
ghost use Rattle.scripts.specs.Lines.{texts};

use scripts::{Misfit, byte};
use sheets::{Cell, Want};
use wordcounts::{no_words, only_byte};

// Any value, where no word stands behind it.
fn any(rest: &[&str]) -> Result<Want, Misfit>
    ensures { result ≡ any_in (no_words (texts rest.now)) }
{
    no_words(rest)?;
    Ok(Want::Any)
}

// What a word and those behind it say is wanted.
fn want(word: &str, rest: &[&str]) -> Result<Want, Misfit>
    ensures { result ≡ want_in word.now (texts rest.now) }
{
    match word {
        "any" => any(rest),
        "constant" => Ok(Want::Constant(only_byte(rest)?)),
        "own" => Ok(Want::Own(only_byte(rest)?)),
        "bind" => Ok(Want::Bind(only_byte(rest)?)),
        "slot" => Ok(Want::Slot(only_byte(rest)?)),
        _ => Err(Misfit::NotACell),
    }
}

// The cell that some words write.
pub fn cell(words: &[&str]) -> Result<Cell, Misfit>
    ensures { result ≡ cell_in (texts words.now) }
{
    match words {
        [field, word, rest @ ..] => Ok(Cell {
            field: byte(field)?,
            want: want(word, rest)?,
        }),
        _ => Err(Misfit::MissingWord),
    }
}

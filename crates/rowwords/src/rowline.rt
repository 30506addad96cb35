// The words of a line about the latest row.
ghost use Rattle.std.specs.Prelude.{◌≡◌};
ghost use Rattle.scripts.specs.Lines.{texts};
ghost use Rattle.rowwords.specs.Patterns.{pattern_in};
ghost use Rattle.rowwords.specs.RowLines.{ask_in, bare_in, condition_in, row_line_in, strike_in};
ghost use Rattle.wordcounts.specs.Counts.{no_words};

use crate::cells::cell;
use crate::patterns::pattern;
use scripts::Misfit;
use sheets::{Condition, Entry};
use tablelines::RowLine;
use wordcounts::no_words;

// `if STATE ARG..`, or `unless STATE ARG..`, which is negated
fn condition(negated: bool, words: &[&str]) -> Result<RowLine, Misfit>
    ensures { result ≡ condition_in negated (pattern_in (texts words.now)) }
{
    Ok(RowLine::Condition(Condition {
        negated,
        pattern: pattern(words)?,
    }))
}

// `ok` or `error`, with no word behind it
fn bare(entry: Entry, words: &[&str]) -> Result<RowLine, Misfit>
    ensures { result ≡ bare_in entry (no_words (texts words.now)) }
{
    no_words(words)?;
    Ok(RowLine::Entry(entry))
}

// `ask STATE ARG..`
fn ask(words: &[&str]) -> Result<RowLine, Misfit>
    ensures { result ≡ ask_in (pattern_in (texts words.now)) }
{
    Ok(RowLine::Entry(Entry::Ask(pattern(words)?)))
}

// `strike STATE ARG..`
fn strike(words: &[&str]) -> Result<RowLine, Misfit>
    ensures { result ≡ strike_in (pattern_in (texts words.now)) }
{
    Ok(RowLine::Entry(Entry::Strike(pattern(words)?)))
}

// The part of a row that a line's first word and those behind it write.
pub fn row_line(word: &str, rest: &[&str]) -> Result<RowLine, Misfit>
    ensures { result ≡ row_line_in word.now (texts rest.now) }
{
    match word {
        "cell" => Ok(RowLine::Cell(cell(rest)?)),
        "if" => condition(false, rest),
        "unless" => condition(true, rest),
        "ok" => bare(Entry::Ok, rest),
        "error" => bare(Entry::Error, rest),
        "ask" => ask(rest),
        "strike" => strike(rest),
        _ => Err(Misfit::NotACommand),
    }
}

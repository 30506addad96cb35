// The words of a line that builds tables.
ghost use Rattle.std.specs.Prelude.{◌≡◌, false, codes};
ghost use Rattle.std.specs.Str.{bytes_eq};
ghost use Rattle.scripts.specs.Lines.{texts};
ghost use Rattle.wordcounts.specs.Counts.{only_byte, only_word, two_bytes};
ghost use Rattle.rowwords.specs.RowLines.{row_line_in};
ghost use Rattle.tablewords.specs.States.{state_words};
ghost use Rattle.tablewords.specs.TableLines.{in_row, key_line, plain_line, row_line, state_line, watch_line};

use crate::marks::state_of;
use rowwords::row_line;
use scripts::{Misfit, ScriptValue};
use std::alloc::Global;
use tablelines::TableLine;
use wordcounts::{only_byte, only_word, two_bytes};

// `state PARAMS MARK..`
fn state<V>(words: &[&str]) -> Result<TableLine<V>, Misfit>
    ensures { result ≡ state_line (state_words (texts words.now)) }
{
    Ok(TableLine::State(state_of(words)?))
}

// `constant V`
fn constant<V: ScriptValue>(heap: Global, words: &[&str]) -> Result<TableLine<V>, Misfit> {
    Ok(TableLine::Constant(V::of_word(heap, only_word(words)?)?))
}

// `watch KIND`
fn watch<V>(words: &[&str]) -> Result<TableLine<V>, Misfit>
    ensures { result ≡ watch_line (only_byte (only_word (texts words.now))) }
{
    Ok(TableLine::Watch {
        kind: only_byte(words)?,
    })
}

// `key KIND FIELD`
fn key<V>(words: &[&str]) -> Result<TableLine<V>, Misfit>
    ensures { result ≡ key_line (two_bytes (texts words.now)) }
{
    let (kind, field) = two_bytes(words)?;
    Ok(TableLine::Key { kind, field })
}

// `row SOURCE KIND`
fn row<V>(words: &[&str]) -> Result<TableLine<V>, Misfit>
    ensures { result ≡ row_line (two_bytes (texts words.now)) }
{
    let (source, kind) = two_bytes(words)?;
    Ok(TableLine::Row { source, kind })
}

// A line about the latest row
fn in_row<V>(word: &str, rest: &[&str]) -> Result<TableLine<V>, Misfit>
    ensures { result ≡ in_row (row_line_in word.now (texts rest.now)) }
{
    Ok(TableLine::InRow(row_line(word, rest)?))
}

// A line without values, by its first word and those behind it.
fn plain_line<V>(word: &str, rest: &[&str]) -> Result<TableLine<V>, Misfit>
    ensures { result ≡ plain_line word.now (texts rest.now) }
{
    match word {
        "state" => state(rest),
        "watch" => watch(rest),
        "key" => key(rest),
        "row" => row(rest),
        _ => in_row(word, rest),
    }
}

// The line that builds tables, by its first word and those behind it.
pub fn table_line<V: ScriptValue>(
    heap: Global,
    word: &str,
    rest: &[&str],
) -> Result<TableLine<V>, Misfit>
    ensures { bytes_eq word.now (codes "constant") ≡ false → result ≡ plain_line word.now (texts rest.now) }
{
    match word {
        "constant" => constant(heap, rest),
        _ => plain_line(word, rest),
    }
}

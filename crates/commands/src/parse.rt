// The words of a line as a command.
ghost use Rattle.std.specs.Prelude.{◌≡◌, true, Some, None, if◌then◌else◌};
ghost use Rattle.scripts.specs.Lines.{texts};
ghost use Rattle.wordcounts.specs.Counts.{no_words};
ghost use Rattle.commands.specs.Commands.{bare_in, is_plain, is_plain_line, plain_line, plain_of};

use crate::command::Command;
use bookwords::book_line;
use scripts::{Misfit, ScriptValue, bytes_of, event_of, room};
use std::alloc::Global;
use tablelines::TableLine;
use tablewords::table_line;
use wordcounts::{no_words, only_word};

// The command of one word, if the word is one.
fn plain<V: Copy>(word: &str) -> Option<Command<V>>
    ensures { result ≡ (if is_plain word.now then Some (plain_of word.now) else None) }
{
    match word {
        "load" => Some(Command::Load),
        "keyed" => Some(Command::Keyed),
        "clear" => Some(Command::Table(TableLine::Clear)),
        _ => None,
    }
}

// `read HEX`; `read` alone reads the empty batch.
fn read<V: Copy>(heap: Global, words: &[&str]) -> Result<Command<V>, Misfit> {
    match words {
        [] => Ok(Command::Read {
            batch: Vec::new(heap),
        }),
        _ => Ok(Command::Read {
            batch: bytes_of(heap, only_word(words)?)?,
        }),
    }
}

// `write ROOM KIND F=V..`
fn write<V: ScriptValue>(heap: Global, words: &[&str]) -> Result<Command<V>, Misfit> {
    match words {
        [places, kind, fields @ ..] => Ok(Command::Write {
            room: room(places)?,
            event: event_of(heap, kind, fields)?,
        }),
        _ => Err(Misfit::MissingWord),
    }
}

// A command that takes words, by its first word and those behind it.
fn other<V: ScriptValue>(heap: Global, word: &str, rest: &[&str]) -> Result<Command<V>, Misfit> {
    if let Some(line) = book_line(heap, word, rest) {
        return Ok(Command::OnBook(line?));
    }
    match word {
        "read" => read(heap, rest),
        "write" => write(heap, rest),
        _ => Ok(Command::Table(table_line(heap, word, rest)?)),
    }
}

// The command of a line's first word and those behind it.
fn headed<V: ScriptValue>(heap: Global, word: &str, rest: &[&str]) -> Result<Command<V>, Misfit>
    ensures { is_plain word.now ≡ true → result ≡ bare_in (plain_of word.now) (no_words (texts rest.now)) }
{
    match plain(word) {
        Some(command) => {
            no_words(rest)?;
            Ok(command)
        }
        None => other(heap, word, rest),
    }
}

// The command that the words of a line ask for.
pub fn command_of<V: ScriptValue>(heap: Global, words: &[&str]) -> Result<Command<V>, Misfit>
    ensures { is_plain_line (texts words.now) ≡ true → result ≡ plain_line (texts words.now) }
{
    match words {
        [] => Err(Misfit::NotACommand),
        [word, rest @ ..] => headed(heap, word, rest),
    }
}

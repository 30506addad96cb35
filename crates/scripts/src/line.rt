// A line of a script: its words, and whether it begins a session.
ghost use Rattle.std.specs.Prelude.{◌≡◌};
ghost use Rattle.scripts.specs.Lines.{headed_by, is_remark, kind_in, line_of, sheet_of, texts};

use crate::misfit::Misfit;
use std::alloc::Global;

// The kinds of value that a session can be of.
#[derive(Clone, Copy)]
pub enum ValueKind {
    Numbers,
    References,
}

// What the words of a line are for.
#[derive(Clone, Copy)]
pub enum Line {
    // Nothing: there are no words, or the first begins with `#`.
    Remark,
    // A new session.
    Sheet(ValueKind),
    // A command for the session.
    Command,
}

// The words of a line, which spaces, tabs and carriage returns part.
pub fn words_of(heap: Global, line: &[u8]) -> Result<Vec<&str>, Misfit> {
    let text = std::str::from_utf8(line).map_err(|_| Misfit::NotText)?;
    let words = text
        .split([' ', '\t', '\r'])
        .filter(|word| !word.is_empty())
        .collect(heap)?;
    Ok(words)
}

impl TryFrom<&str> for ValueKind {
    type Error = Misfit;

    // The kind of value that a word names.
    fn try_from(word: &str) -> Result<ValueKind, Misfit>
        ensures { result ≡ kind_in word.now }
    {
        match word {
            "numbers" => Ok(ValueKind::Numbers),
            "references" => Ok(ValueKind::References),
            _ => Err(Misfit::NotAKindOfValue),
        }
    }
}

// Whether a word begins a remark.
fn is_remark(word: &str) -> bool
    ensures { result ≡ is_remark word.now }
{
    word.starts_with('#')
}

// What `sheet` asks for, by the words behind it.
fn sheet(words: &[&str]) -> Result<Line, Misfit>
    ensures { result ≡ sheet_of (texts words.now) }
{
    match words {
        [] => Err(Misfit::MissingWord),
        [kind] => Ok(Line::Sheet(ValueKind::try_from(*kind)?)),
        _ => Err(Misfit::TooManyWords),
    }
}

// What a line is for, by its first word and the words behind it.
fn headed(word: &str, rest: &[&str]) -> Result<Line, Misfit>
    ensures { result ≡ headed_by word.now (texts rest.now) }
{
    if is_remark(word) {
        Ok(Line::Remark)
    } else if word == "sheet" {
        sheet(rest)
    } else {
        Ok(Line::Command)
    }
}

// What the words of a line are for.
pub fn line_of(words: &[&str]) -> Result<Line, Misfit>
    ensures { result ≡ line_of (texts words.now) }
{
    match words {
        [] => Ok(Line::Remark),
        [word, rest @ ..] => headed(word, rest),
    }
}

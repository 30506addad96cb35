// States in a script: the number of parameters, then the marks.
ghost use Rattle.std.specs.Prelude.{◌≡◌};
ghost use Rattle.std.specs.Str.{bytes_eq};
ghost use Rattle.std.specs.List.{list_all, list_any};
ghost use Rattle.scripts.specs.Decimals.{byte_in, number_in};
ghost use Rattle.scripts.specs.Lines.{texts};
ghost use Rattle.tablewords.specs.States.{is_among, is_mark, marked, state_in, state_words};

use scripts::{Misfit, byte};
use sheets::State;

// Whether a word is one of some words.
fn is_among(word: &str, words: &[&str]) -> bool
    ensures { result ≡ list_any (λ w. bytes_eq word.now w.now) words.now }
{
    words.iter().any(|other| *other == word)
}

// Whether a word is a mark.
fn is_mark(word: &str) -> bool
    ensures { result ≡ is_mark word.now }
{
    matches!(word, "init" | "always" | "hot" | "step" | "next")
}

// Whether every word is a mark.
fn all_marks(words: &[&str]) -> bool
    ensures { result ≡ list_all (λ w. is_mark w.now) words.now }
{
    words.iter().all(|word| is_mark(word))
}

// The state of so many parameters that has these marks. A mark may stand twice.
fn with_marks(parameters: u8, marks: &[&str]) -> Result<State, Misfit>
    ensures { result ≡ marked parameters (texts marks.now) }
{
    if !all_marks(marks) {
        return Err(Misfit::NotAMark);
    }
    Ok(State {
        parameters,
        init: is_among("init", marks),
        always: is_among("always", marks),
        hot: is_among("hot", marks),
        step: is_among("step", marks),
        next: is_among("next", marks),
    })
}

// The state of a number of parameters and some marks.
fn with_number(parameters: &str, marks: &[&str]) -> Result<State, Misfit>
    ensures { result ≡ state_in (byte_in (number_in parameters.now)) (texts marks.now) }
{
    with_marks(byte(parameters)?, marks)
}

// The state that some words write.
pub fn state_of(words: &[&str]) -> Result<State, Misfit>
    ensures { result ≡ state_words (texts words.now) }
{
    match words {
        [] => Err(Misfit::MissingWord),
        [parameters, marks @ ..] => with_number(parameters, marks),
    }
}

// Patterns in a script: the state's number, then the arguments.
ghost use Rattle.std.specs.Prelude.{◌≡◌, ◌<◌, drop, slice_index};
ghost use Rattle.scripts.specs.Decimals.{byte_in, number_in};
ghost use Rattle.scripts.specs.Lines.{texts};
ghost use Rattle.rowwords.specs.Patterns.{argument_in, arguments_in, lettered, pattern_in, three_of, two_of};

use scripts::{Misfit, byte};
use sheets::{Argument, Arguments, Pattern};

// The byte that a word writes behind its first letter, which is of ASCII.
fn behind_letter(word: &str) -> Result<u8, Misfit>
    requires { (0 < slice_index word.now 0) × (slice_index word.now 0 < 128) }
    ensures { result ≡ byte_in (number_in (drop 1 word.now)) }
{
    byte(&word[1..])
}

// The argument of a letter and a number.
fn numbered(word: &str) -> Result<Argument, Misfit>
    ensures { result ≡ lettered (slice_index word.now 0) (byte_in (number_in (drop 1 word.now))) }
{
    match word.as_bytes() {
        [b'c', ..] => Ok(Argument::Constant(behind_letter(word)?)),
        [b'p', ..] => Ok(Argument::Own(behind_letter(word)?)),
        [b's', ..] => Ok(Argument::Slot(behind_letter(word)?)),
        _ => Err(Misfit::NotAnArgument),
    }
}

// The argument that a word writes.
fn argument(word: &str) -> Result<Argument, Misfit>
    ensures { result ≡ argument_in word.now }
{
    if word == "any" {
        Ok(Argument::Any)
    } else {
        numbered(word)
    }
}

// Two arguments.
fn two(a: &str, b: &str) -> Result<Arguments, Misfit>
    ensures { result ≡ two_of (argument_in a.now) (argument_in b.now) }
{
    Ok(Arguments::Two(argument(a)?, argument(b)?))
}

// Three arguments.
fn three(a: &str, b: &str, c: &str) -> Result<Arguments, Misfit>
    ensures { result ≡ three_of (argument_in a.now) (argument_in b.now) (argument_in c.now) }
{
    Ok(Arguments::Three(argument(a)?, argument(b)?, argument(c)?))
}

// The arguments that some words write.
fn arguments(words: &[&str]) -> Result<Arguments, Misfit>
    ensures { result ≡ arguments_in (texts words.now) }
{
    match words {
        [] => Ok(Arguments::Nothing),
        [a] => Ok(Arguments::One(argument(a)?)),
        [a, b] => two(a, b),
        [a, b, c] => three(a, b, c),
        _ => Err(Misfit::TooManyArguments),
    }
}

// The pattern that some words write.
pub fn pattern(words: &[&str]) -> Result<Pattern, Misfit>
    ensures { result ≡ pattern_in (texts words.now) }
{
    match words {
        [] => Err(Misfit::MissingWord),
        [state, rest @ ..] => Ok(Pattern {
            state: byte(state)?,
            arguments: arguments(rest)?,
        }),
    }
}

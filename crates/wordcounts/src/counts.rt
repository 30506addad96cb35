// How many words there are behind a command.
ghost use Rattle.std.specs.Prelude.{◌≡◌, Ok, Err, MatchResult};
ghost use Rattle.wordcounts.specs.Counts.{no_words, only_byte, only_word, pair_of, two_bytes};
ghost use Rattle.scripts.specs.Decimals.{byte_in, number_in};
ghost use Rattle.scripts.specs.Lines.{texts};

use scripts::{Misfit, byte};

// No word.
pub fn no_words(words: &[&str]) -> Result<(), Misfit>
    ensures { result ≡ no_words (texts words.now) }
{
    match words {
        [] => Ok(()),
        _ => Err(Misfit::TooManyWords),
    }
}

// The one word.
pub fn only_word<'a>(words: &[&'a str]) -> Result<&'a str, Misfit>
    ensures { MatchResult result (λ w. only_word (texts words.now) ≡ Ok w.now) (λ e. only_word (texts words.now) ≡ Err e) }
{
    match words {
        [] => Err(Misfit::MissingWord),
        [word] => Ok(word),
        _ => Err(Misfit::TooManyWords),
    }
}

// The byte that the one word writes.
pub fn only_byte(words: &[&str]) -> Result<u8, Misfit>
    ensures { result ≡ only_byte (only_word (texts words.now)) }
{
    byte(only_word(words)?)
}

// The bytes of two words.
fn pair(first: &str, second: &str) -> Result<(u8, u8), Misfit>
    ensures { result ≡ pair_of (byte_in (number_in first.now)) (byte_in (number_in second.now)) }
{
    Ok((byte(first)?, byte(second)?))
}

// The bytes that the two words write.
pub fn two_bytes(words: &[&str]) -> Result<(u8, u8), Misfit>
    ensures { result ≡ two_bytes (texts words.now) }
{
    match words {
        [first, second] => pair(first, second),
        [_, _, ..] => Err(Misfit::TooManyWords),
        _ => Err(Misfit::MissingWord),
    }
}

// Words as numbers: decimal digits alone, so no sign.
ghost use Rattle.std.specs.Prelude.{◌≡◌};
ghost use Rattle.std.specs.Char.{is_ascii_digit};
ghost use Rattle.std.specs.List.{list_all};
ghost use Rattle.scripts.specs.Decimals.{byte_in, is_decimal, number_in, room_in, room_of};

use crate::misfit::Misfit;

// The most places of a buffer.
const MOST_ROOM: u64 = 1_000_000;

// Whether all bytes are digits.
fn all_digits(bytes: &[u8]) -> bool
    ensures { result ≡ list_all is_ascii_digit bytes.now }
{
    bytes.iter().all(|b| b.is_ascii_digit())
}

// Whether a word is one digit or more, and nothing else.
fn is_decimal(word: &str) -> bool
    ensures { result ≡ is_decimal word.now }
{
    !word.is_empty() && all_digits(word.as_bytes())
}

// The number that a word writes.
pub fn number(word: &str) -> Result<u64, Misfit>
    ensures { result ≡ number_in word.now }
{
    if !is_decimal(word) {
        return Err(Misfit::NotANumber);
    }
    word.parse::<u64>().map_err(|_| Misfit::NumberTooLarge)
}

// The number that a word writes, where a byte holds it.
pub fn byte(word: &str) -> Result<u8, Misfit>
    ensures { result ≡ byte_in (number_in word.now) }
{
    u8::try_from(number(word)?).map_err(|_| Misfit::NumberTooLarge)
}

// As many places as a buffer may have.
fn room_of(places: u64) -> Result<usize, Misfit>
    ensures { result ≡ room_of places }
{
    if places > MOST_ROOM {
        return Err(Misfit::TooMuchRoom);
    }
    Ok(places as usize)
}

// The number of a buffer's places that a word writes.
pub fn room(word: &str) -> Result<usize, Misfit>
    ensures { result ≡ room_in (number_in word.now) }
{
    room_of(number(word)?)
}

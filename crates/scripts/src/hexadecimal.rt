// Words as bytes: two hexadecimal digits to a byte, the high one first.
ghost use Rattle.std.specs.Prelude.{◌≡◌, ◌<◌, ◌⊎◌, IfSome, Some, None, MatchResult};
ghost use Rattle.scripts.specs.declared.misfit.Misfit.TheVariants.{NoMemory, NotHexadecimal};
ghost use Rattle.scripts.specs.Hexadecimals.{byte_of, bytes_of, digit_of};

use crate::misfit::Misfit;
use std::alloc::Global;

// The value of a hexadecimal digit, of either case.
fn digit_of(digit: u8) -> Option<u8>
    ensures value { result ≡ digit_of digit }
    ensures small { IfSome result (λ d. d < 16) }
{
    match digit {
        b'0'..=b'9' => Some(digit - b'0'),
        b'a'..=b'f' => Some(digit - b'a' + 10),
        b'A'..=b'F' => Some(digit - b'A' + 10),
        _ => None,
    }
}

// The byte that two digits write.
fn byte_of(high: u8, low: u8) -> Option<u8>
    ensures { result ≡ byte_of high low }
{
    Some(16 * digit_of(high)? + digit_of(low)?)
}

// The bytes that a word writes.
pub fn bytes_of(heap: Global, word: &str) -> Result<Vec<u8>, Misfit>
    ensures { MatchResult result (λ v. bytes_of word.now ≡ Some v.items) (λ e. (e ≡ NoMemory) ⊎ ((e ≡ NotHexadecimal) × (bytes_of word.now ≡ None))) }
{
    let mut bytes = Vec::new(heap);
    let mut left = word.as_bytes();
    while let [high, low, rest @ ..] = left {
        bytes.push(byte_of(*high, *low).ok_or(Misfit::NotHexadecimal)?)?;
        left = rest;
    }
    if left.is_empty() {
        Ok(bytes)
    } else {
        Err(Misfit::NotHexadecimal)
    }
}

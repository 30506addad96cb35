// Values in a script: a number in decimal digits, a reference as the hexadecimal of its bytes, and `-` for the references' filler.
ghost use Rattle.std.specs.Prelude.{ℕ, List, Result};
ghost use Rattle.scripts.specs.declared.misfit.Misfit.{Misfit};
ghost use Rattle.scripts.specs.Meanings.{OrNoMemory, number_meant, reference_meant};

use crate::decimal::number;
use crate::hexadecimal::bytes_of;
use crate::misfit::Misfit;
use std::alloc::Global;
use std::fmt;
use values::{Number, Reference, Value};

// The word of the references' filler.
const FILLER: &str = "-";

// A kind of value that has words: each is shown by its word.
pub trait ScriptValue: Value + fmt::Display {
    // What a word means.
    ghost meant: { List ℕ → Result Self Misfit };

    // The value that a word writes.
    fn of_word(heap: Global, word: &str) -> Result<Self, Misfit>
        ensures { OrNoMemory result (meant word.now) };
}

impl ScriptValue for Number {
    ghost meant = { number_meant };

    fn of_word(_heap: Global, word: &str) -> Result<Number, Misfit> {
        Ok(Number {
            value: number(word)?,
        })
    }
}

impl ScriptValue for Reference {
    ghost meant = { reference_meant };

    fn of_word(heap: Global, word: &str) -> Result<Reference, Misfit> {
        if word == FILLER {
            return Ok(<Reference as Value>::filler());
        }
        let bytes = bytes_of(heap, word)?;
        Reference::from_bytes(bytes.as_slice()).ok_or(Misfit::NotAReference)
    }
}

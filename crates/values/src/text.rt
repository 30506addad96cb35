// Values in words: a number in decimal digits, a reference as the hexadecimal of its bytes, and `-` for the references' filler.
ghost use Rattle.std.specs.Prelude.{Some};
ghost use Rattle.values.specs.Texts.{hex_text, number_text, reference_text};

use crate::number::Number;
use crate::reference::Reference;
use std::fmt;

// Bytes as a word: two hexadecimal digits to a byte, in lower case, the high one first.
#[derive(Clone, Copy)]
pub struct Hex<'a> {
    pub bytes: &'a [u8],
}

impl<'a> fmt::Display for Hex<'a> {
    ghost output = { λ hex. Some (hex_text hex.bytes.now) };

    fn fmt<W: fmt::Write>(&self, f: &mut fmt::Formatter<W>) -> fmt::Result {
        for &b in self.bytes {
            write!(f, "{b:02x}")?;
        }
        Ok(())
    }
}

impl fmt::Display for Number {
    ghost output = { λ number. Some (number_text number) };

    fn fmt<W: fmt::Write>(&self, f: &mut fmt::Formatter<W>) -> fmt::Result {
        let value = self.value;
        write!(f, "{value}")
    }
}

impl fmt::Display for Reference {
    ghost output = { λ reference. Some (reference_text reference) };

    fn fmt<W: fmt::Write>(&self, f: &mut fmt::Formatter<W>) -> fmt::Result {
        let row = self.to_bytes();
        match self.len() {
            0 => f.write_str("-"),
            n => {
                let bytes = Hex { bytes: &row[0..n] };
                write!(f, "{bytes}")
            }
        }
    }
}

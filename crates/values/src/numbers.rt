// Numbers as a kind of value, in their usual order: a width code, then the number in the smallest width that holds it, the high byte first.
ghost use Rattle.std.specs.Prelude.{◌≡◌, ◌≤◌, ◌==◌};
ghost use Rattle.values.specs.Buckets.{number_bucket};
ghost use Rattle.values.specs.NumberForm.{code_of, holds_in, number_is, number_order, number_reads, number_written, width_of};
ghost use Rattle.values.specs.Widths.{number-form};
ghost use Rattle.std.proofs.Common.{rules};

use crate::buckets::top_ten;
use crate::number::Number;
use crate::value::{Bucketed, Value};
use crate::words::{number_of, put_number};
use std::cmp::Ordering;

// The largest width code.
const LARGEST_CODE: u8 = 3;

// How many bytes a width code stands for.
fn width_of(code: u8) -> usize
    requires { code ≤ 3 }
    ensures { result ≡ width_of code }
{
    1 << code
}

// Whether as many bytes can hold a number.
fn holds_in(width: usize, n: u64) -> bool
    requires { width ≤ 7 }
    ensures { result ≡ holds_in width n }
{
    n >> (8 * width) == 0
}

// The code of the smallest width that holds a number.
fn code_of(n: u64) -> u8
    ensures { result ≡ code_of n }
{
    for code in 0..LARGEST_CODE {
        if holds_in(width_of(code), n) {
            return code;
        }
    }
    LARGEST_CODE
}

// Whether a number stands at the code of its smallest width.
fn is_smallest(code: u8, n: u64) -> bool
    ensures { result ≡ (code_of n == code) }
{
    code_of(n) == code
}

impl Number {
    // Whether the number is less than, equal to or greater than another: the derived order is the usual one.
    pub fn compare(&self, other: &Number) -> Ordering
        ensures { result ≡ number_order self.now other.now }
    {
        self.cmp(other)
    }
}

impl Value for Number {
    ghost order = { number_order };

    ghost blank = { number_is 0 };

    ghost written = { number_written };

    ghost reads = { number_reads };

    ghost ordered = { Prim.search rules };

    ghost total = { Prim.search rules };

    ghost form = { number-form };

    fn filler() -> Number {
        Number { value: 0 }
    }

    fn read(bytes: &[u8]) -> Result<(Number, usize), usize> {
        let [code, rest @ ..] = bytes else {
            return Err(0);
        };
        if *code > LARGEST_CODE {
            return Err(0);
        }
        let width = width_of(*code);
        if rest.len() < width {
            return Err(bytes.len());
        }
        let value = number_of(&rest[0..width]);
        if !is_smallest(*code, value) {
            return Err(0);
        }
        Ok((Number { value }, 1 + width))
    }

    fn size(&self) -> Option<usize> {
        Some(1 + width_of(code_of(self.value)))
    }

    fn write(&self, buffer: &mut [u8]) -> usize {
        let code = code_of(self.value);
        let end = 1 + width_of(code);
        buffer[0] = code;
        put_number(self.value, &mut buffer[1..end]);
        end
    }
}

impl Bucketed for Number {
    ghost bucket_of = { number_bucket };

    ghost below = { Prim.search rules };

    fn bucket(&self) -> usize {
        top_ten(self.value.wrapping_mul(0x9e37_79b9_7f4a_7c15))
    }
}

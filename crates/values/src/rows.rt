// The sixteen bytes of a reference.
ghost use Rattle.std.specs.Prelude.{◌≡◌, ◌≤◌, length, position, ◌==◌};
ghost use Rattle.values.specs.ReferenceForm.{length_fits, of_row, packed, padded, row_of, until_zero};

use crate::reference::Reference;
use crate::words::{number_of, put_number};

// The most bytes that a reference has.
const LONGEST: usize = 16;

// Whether a reference may have that many bytes.
pub fn length_fits(n: usize) -> bool
    ensures { result ≡ length_fits n }
{
    1 <= n && n <= LONGEST
}

// The place of the first zero byte.
fn first_zero(bytes: &[u8]) -> Option<usize>
    ensures { result ≡ position (λ b. (b == 0)) bytes.now }
{
    bytes.iter().position(|b| *b == 0)
}

// How many bytes stand before the first zero byte.
pub fn until_zero(bytes: &[u8]) -> usize
    ensures value { result ≡ until_zero bytes.now }
    ensures within { result ≤ length bytes.now }
{
    first_zero(bytes).unwrap_or(bytes.len())
}

// Bytes, extended by zero bytes to sixteen.
fn padded_row(bytes: &[u8]) -> [u8; 16]
    requires { length bytes.now ≤ 16 }
    ensures { result ≡ padded bytes.now }
{
    let mut row = [0; 16];
    row[0..bytes.len()].copy_from_slice(bytes);
    row
}

// The reference that sixteen bytes are.
fn of_row(row: &[u8]) -> Reference
    requires { length row.now ≡ 16 }
    ensures { result ≡ of_row row.now }
{
    Reference {
        high: number_of(&row[0..8]),
        low: number_of(&row[8..16]),
    }
}

// The reference of some bytes.
pub fn pack(bytes: &[u8]) -> Reference
    requires { length bytes.now ≤ 16 }
    ensures { result ≡ packed bytes.now }
{
    of_row(&padded_row(bytes))
}

// The sixteen bytes of a reference.
pub fn row_of(x: Reference) -> [u8; 16]
    ensures { result ≡ row_of x }
{
    let mut row = [0; 16];
    put_number(x.high, &mut row[0..8]);
    put_number(x.low, &mut row[8..16]);
    row
}

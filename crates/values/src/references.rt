// References as a kind of value, in the order of their bytes from the first: a length from 1 to 16, then as many bytes, none of them zero.
ghost use Rattle.std.specs.Prelude.{◌≡◌, ◌≤◌};
ghost use Rattle.values.specs.Buckets.{reference_bucket};
ghost use Rattle.values.specs.Order.{by_bytes};
ghost use Rattle.values.specs.ReferenceForm.{reference_is, reference_of, reference_order, reference_reads, reference_written, row_of, until_zero};
ghost use Rattle.values.specs.Packing.{reference-form};
ghost use Rattle.std.proofs.Common.{rules};

use crate::buckets::top_ten;
use crate::reference::Reference;
use crate::rows::{length_fits, pack, row_of, until_zero};
use crate::value::{Bucketed, Value};
use std::cmp::Ordering;

impl Reference {
    // The reference that bytes make, or none where they are not 1 to 16 or one of them is zero.
    pub fn from_bytes(bytes: &[u8]) -> Option<Reference>
        ensures { result ≡ reference_of bytes.now }
    {
        let n = bytes.len();
        if length_fits(n) && until_zero(bytes) == n {
            Some(pack(bytes))
        } else {
            None
        }
    }

    // The reference's bytes, extended by zero bytes to sixteen.
    pub fn to_bytes(self) -> [u8; 16]
        ensures { result ≡ row_of self }
    {
        row_of(self)
    }

    // How many bytes the reference has: 0 for the filler.
    pub fn len(self) -> usize
        ensures value { result ≡ until_zero (row_of self) }
        ensures within { result ≤ 16 }
    {
        until_zero(&row_of(self))
    }

    // Whether the reference is less than, equal to or greater than another: the derived order is that of the bytes, from the first on.
    pub fn compare(&self, other: &Reference) -> Ordering
        ensures words { result ≡ reference_order self.now other.now }
        ensures bytes { result ≡ by_bytes (row_of self.now) (row_of other.now) }
    {
        compare_rows(*self, *other)
    }
}

// The derived order is that of the words.
fn compare_words(x: Reference, y: Reference) -> Ordering
    ensures { result ≡ reference_order x y }
{
    x.cmp(&y)
}

// The order of the words is that of the bytes, from the first on.
fn compare_rows(x: Reference, y: Reference) -> Ordering
    ensures words { result ≡ reference_order x y }
    ensures bytes { result ≡ by_bytes (row_of x) (row_of y) }
{
    compare_words(x, y)
}

impl Value for Reference {
    ghost order = { reference_order };

    ghost blank = { reference_is 0 0 };

    ghost written = { reference_written };

    ghost reads = { reference_reads };

    ghost ordered = { Prim.search rules };

    ghost total = { Prim.search rules };

    ghost form = { reference-form };

    fn filler() -> Reference {
        Reference { high: 0, low: 0 }
    }

    fn read(bytes: &[u8]) -> Result<(Reference, usize), usize> {
        let [length, rest @ ..] = bytes else {
            return Err(0);
        };
        let n = usize::from(*length);
        if !length_fits(n) {
            return Err(0);
        }
        let part = &rest[0..n.min(rest.len())];
        let found = until_zero(part);
        if found < n {
            return Err(1 + found);
        }
        Ok((pack(part), 1 + n))
    }

    fn size(&self) -> Option<usize> {
        let row = row_of(*self);
        let n = until_zero(&row);
        if n == 0 {
            return None;
        }
        if pack(&row[0..n]) != *self {
            return None;
        }
        Some(1 + n)
    }

    fn write(&self, buffer: &mut [u8]) -> usize {
        let row = row_of(*self);
        let n = until_zero(&row);
        buffer[0] = n as u8;
        buffer[1..1 + n].copy_from_slice(&row[0..n]);
        1 + n
    }
}

impl Bucketed for Reference {
    ghost bucket_of = { reference_bucket };

    ghost below = { Prim.search rules };

    fn bucket(&self) -> usize {
        let high = self.high.wrapping_mul(0x9e37_79b9_7f4a_7c15);
        let low = self.low.wrapping_mul(0xc2b2_ae3d_27d4_eb4f);
        top_ten(high.wrapping_add(low))
    }
}

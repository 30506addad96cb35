// Kinds of value.
ghost use Rattle.std.specs.Prelude.{◌≡◌, ℕ, ◌<◌, ◌≤◌, true, List, length, is_some, Option};
ghost use Rattle.std.specs.declared.cmp.Ordering.{Ordering};
ghost use Rattle.std.specs.Option.{option_map};
ghost use Rattle.values.specs.Order.{TotalOrder};
ghost use Rattle.values.specs.Form.{Reading, WrittenForm, bytes_in, filled};

// A kind of value: what the fields of an event and the items of a shelf hold.
pub trait Value: Copy + Ord {
    // Whether a value is less than, equal to or greater than another.
    ghost order: { Self → Self → Ordering };

    // The value that stands where there is none.
    ghost blank: { Self };

    // The bytes of a value, or none.
    ghost written: { Self → Option (List ℕ) };

    // The value in front of some bytes, with its length, or the place that is refused.
    ghost reads: { List ℕ → Reading Self };

    // The value that stands where there is none.
    fn filler() -> Self
        ensures { result ≡ blank };

    // The value in front, with its length, or the place of the refused byte.
    fn read(bytes: &[u8]) -> Result<(Self, usize), usize>
        ensures { result ≡ reads bytes.now };

    // How many bytes the value is written in, or none where it has no written form.
    fn size(&self) -> Option<usize>
        ensures { result ≡ option_map length (written self.now) };

    // Fills the front of a buffer with the value's bytes, and answers how many.
    fn write(&self, buffer: &mut [u8]) -> usize
        requires { (is_some (written self.now) ≡ true) × (length (bytes_in (written self.now)) ≤ length buffer.old) }
        ensures count { result ≡ length (bytes_in (written self.now)) }
        ensures bytes { buffer.new ≡ filled (bytes_in (written self.now)) buffer.old };

    // Values are compared in that order.
    ghost ordered: { (x y : Self) → Self.Ord.cmp x y ≡ order x y };

    // Equal values are the same value.
    ghost total: { TotalOrder Self.Ord.cmp };

    ghost form: { WrittenForm written reads };
}

// A kind whose values fall into 1,024 buckets, by the value alone.
pub trait Bucketed: Value {
    ghost bucket_of: { Self → ℕ };

    fn bucket(&self) -> usize
        ensures { result ≡ bucket_of self.now };

    ghost below: { (x : Self) → bucket_of x < 1024 };
}

// The buckets of values.
ghost use Rattle.std.specs.Prelude.{◌≡◌, ◌*◌, ◌%◌, ◌^◌};
ghost use Rattle.values.specs.Buckets.{top_ten};

// The top ten bits of a word.
pub fn top_ten(word: u64) -> usize
    ensures { result ≡ top_ten word }
{
    (word >> 54) as usize
}

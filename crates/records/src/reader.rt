// A reader over the bytes of a batch, with its place.
ghost use Rattle.std.specs.Prelude.{◌≡◌};

// The bytes of a batch, and the place of the first byte that is not read yet.
#[derive(Drop)]
pub struct Reader<'a> {
    pub(crate) bytes: &'a [u8],
    pub(crate) place: usize,
}

impl<'a> Reader<'a> {
    // A reader at the first byte of a batch.
    pub fn new(bytes: &'a [u8]) -> Self
        ensures bytes { result.bytes ≡ bytes.entry }
        ensures place { result.place ≡ 0 }
    {
        Reader { bytes, place: 0 }
    }

    // Where the reader stands, counted from the batch's first byte.
    pub fn place(&self) -> usize
        ensures { result ≡ self.now.place }
    {
        self.place
    }
}

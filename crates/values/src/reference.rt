// A reference: 1 to 16 bytes, none of them zero, extended by zero bytes to sixteen and held as two words, the first byte high.
// The filler is sixteen zero bytes. The order of the words, the first one first, is that of the bytes.
#[derive(Clone, Copy, PartialEq, Eq, PartialOrd, Ord)]
pub struct Reference {
    pub(crate) high: u64,
    pub(crate) low: u64,
}

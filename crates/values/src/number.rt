// A number from 0 to 2^64 - 1, in the usual order.
#[derive(Clone, Copy, PartialEq, Eq, PartialOrd, Ord)]
pub struct Number {
    pub value: u64,
}

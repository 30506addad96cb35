// What the calls that take events answer.
use refusals::Refusal;

// How many moves and findings an accepted event made.
#[derive(Clone, Copy)]
pub struct Accepted {
    pub moves: usize,
    pub findings: usize,
}

// How many events of a batch were accepted, how many findings they made, and why the batch stopped before its end, if it did.
#[derive(Clone, Copy)]
pub struct Batched {
    pub accepted: u32,
    pub findings: usize,
    pub refusal: Option<Refusal>,
}

// How many moves and findings an event makes, counted up to the largest that a u128 has.
#[derive(Clone, Copy)]
pub struct Sizes {
    pub moves: u128,
    pub findings: u128,
}

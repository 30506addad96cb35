// Lent buffers that are filled from a place on: what comes past the end is counted and not kept.

#![tactic(auto)]

mod places;

pub use places::{place_after, put, put_if};

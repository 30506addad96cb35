// The lines about books, as values.

#![tactic(auto)]

pub mod bookline;
pub mod make;

pub use bookline::{BookLine, Rooms};
pub use make::Make;

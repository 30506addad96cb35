// The rules of a book as definitions, and the law that every use of a book keeps: this crate is specs and proofs, with the plain types that they speak of.

#![tactic(auto)]

mod answers;
mod fault;
mod finding;
mod moves;
mod phase;
mod tallies;
mod text;
mod theorems;

pub use answers::{Accepted, Batched};
pub use fault::Fault;
pub use finding::Finding;
pub use moves::{Cause, Move};
pub use phase::{Phase, PhaseCall};
pub use tallies::{Counts, Tally};
pub use theorems::{Viewed, cases_hold, law_holds};

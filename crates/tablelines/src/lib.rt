// The lines that build tables, as values.

#![tactic(auto)]

pub mod tableline;

pub use tableline::{RowLine, TableLine};

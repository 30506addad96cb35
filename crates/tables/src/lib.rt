// The tables that the lines of a script build.

#![tactic(auto)]

mod building;
mod kinds;
mod places;
mod rows;
pub mod tables;

pub use tables::Tables;

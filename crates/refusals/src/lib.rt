// Why a call says no: the one enum of refusals, with each one's number, layer and place.

#![tactic(auto)]

pub mod refusal;
pub mod telling;
pub mod text;

pub use refusal::{Broken, Layer, Refusal, Table};

// Kinds of value: their order, their filler, their written form and their buckets.

#![tactic(auto)]

mod buckets;
pub mod number;
pub mod numbers;
pub mod reference;
pub mod references;
mod rows;
pub mod text;
pub mod value;
mod words;

pub use number::Number;
pub use reference::Reference;
pub use value::{Bucketed, Value};

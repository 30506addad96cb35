// What the moves of an event add to the counts that a book keeps for each state name.

#![tactic(auto)]

mod counts;

pub use counts::{count_moves, count_name};

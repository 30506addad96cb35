// The words of a line about a row: cells, conditions and entries.

#![tactic(auto)]

mod cells;
mod patterns;
mod rowline;

pub use rowline::row_line;

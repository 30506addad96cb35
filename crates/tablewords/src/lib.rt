// The words of a line that builds tables.

#![tactic(auto)]

mod marks;
mod tableline;

pub use tableline::table_line;

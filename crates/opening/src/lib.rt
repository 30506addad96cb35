// What the opening of a book does: the init items are put on its shelf, and counted.

#![tactic(auto)]

mod starts;

pub use starts::{count_inits, count_starts, start_items};

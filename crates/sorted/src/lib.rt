// The sorted shelf: items in ascending order, found by halving.

#![tactic(auto)]

mod mark;
mod shelf;

pub use shelf::SortedShelf;

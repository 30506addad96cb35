// Items, their order, and what a shelf of items is.

#![tactic(auto)]

mod added;
mod compare;
mod item;
mod limit;
mod sets;
mod shelf;
mod text;
mod walks;

pub use added::Added;
pub use item::Item;
pub use limit::limit_of;
pub use sets::know_sets;
pub use shelf::Shelf;
pub use walks::count_of;

// The items of any shelf, listed into a lent buffer, and shelves compared by their items.

#![tactic(auto)]

mod everything;
mod into;
mod listing;
mod same;

pub use everything::{Everything, list_items};
pub use into::listed_into;
pub use listing::Listing;
pub use same::same_items;

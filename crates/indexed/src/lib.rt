// The indexed shelf: items in cells that are linked by number, found through chains by name and bucket.

#![tactic(auto)]

mod shelf;
mod walk;

pub use shelf::IndexedShelf;

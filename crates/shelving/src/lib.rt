// New shelves, and new buffers to be lent.

#![tactic(auto)]

mod buffers;
mod shelves;

pub use buffers::{finding_room, item_room, move_room};
pub use shelves::shelf_of;

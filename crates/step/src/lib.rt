// One event over any shelf: its moves and findings, the set afterwards, and what is counted.

#![tactic(auto)]

mod causes;
mod changes;
mod counts;
mod events;
pub mod part;
pub mod scope;
mod scopes;
mod sizes;
mod walk;

pub use causes::is_moved;
pub use changes::{apply, takes_out};
pub use counts::count_added;
pub use events::{apply_event, event_findings, event_moves};
pub use sizes::{is_left, new_size};

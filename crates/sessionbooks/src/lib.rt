// The books of a session, and the lines that make and call them.

#![tactic(auto)]

mod calls;
pub mod kept;

pub use kept::SessionBooks;

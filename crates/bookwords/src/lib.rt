// The words of a line about books.

#![tactic(auto)]

mod bookline;
mod counted;
mod events;
mod makes;

pub use bookline::book_line;

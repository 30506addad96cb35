// Books: a sheet and a shelf put to work, event by event.

#![tactic(auto)]

mod asking;
mod batching;
pub mod book;
pub mod closing;
mod comparing;
pub mod day;
mod days;
mod ending;
mod making;
mod opens;
mod putting;
pub mod sizes;
mod taking;

pub use book::Book;
pub use day::Day;
pub use days::whole_day;

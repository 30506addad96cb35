// What the calls of the library answer, in words.

#![tactic(auto)]

mod calls;
mod fault;
mod front;
mod misfits;
mod moves;
mod output;
mod reading;
mod refused;

pub use calls::{
    show_batched, show_compared, show_ended, show_listed, show_opened, show_put, show_tally,
};
pub use fault::Fault;
pub use misfits::report;
pub use moves::untouched;
pub use output::Output;
pub use reading::{show_batch, show_keyed, show_written};
pub use refused::show_refusal;

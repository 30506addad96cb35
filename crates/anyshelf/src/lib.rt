// A shelf of either make, for programs that choose it at run time.

#![tactic(auto)]

mod any;
mod calls;

pub use any::AnyShelf;

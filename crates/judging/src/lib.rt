// Whether the calls of a book are refused.

#![tactic(auto)]

mod refusing;

pub use refusing::{judge_early, judge_end, judge_late, judge_open};

// How many words stand behind a command.

#![tactic(auto)]

mod counts;

pub use counts::{no_words, only_byte, only_word, two_bytes};

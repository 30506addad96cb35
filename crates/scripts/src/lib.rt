// The text of a script: its lines, their words, words as values and events, and values and events as words.

#![tactic(auto)]

pub mod decimal;
mod hexadecimal;
mod line;
pub mod misfit;
mod posting;
pub mod script;
mod text;
mod value;

pub use decimal::{byte, room};
pub use hexadecimal::bytes_of;
pub use line::{Line, ValueKind, line_of, words_of};
pub use misfit::Misfit;
pub use posting::event_of;
pub use script::Script;
pub use value::ScriptValue;
pub use values::text::Hex;

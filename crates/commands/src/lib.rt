// The commands of a script: the words of a line as a command.

#![tactic(auto)]

pub mod command;
mod parse;

pub use command::Command;
pub use parse::command_of;

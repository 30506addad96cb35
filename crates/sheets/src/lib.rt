// Sheets: tables of rules, checked once when they are loaded.

#![tactic(auto)]

pub mod arguments;
mod cells;
mod check;
pub mod fault;
mod keying;
pub mod loading;
pub mod lookup;
mod names;
mod patterns;
pub mod reading;
mod rows;
pub mod sheet;
pub mod table;
pub mod tables;

pub use fault::LoadError;
pub use lookup::{kind_of, state_of};
pub use sheet::Sheet;
pub use tables::{
    Argument, Arguments, Cell, Condition, Entry, EventKind, Pattern, Row, State, Want,
};

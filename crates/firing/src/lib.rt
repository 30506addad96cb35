// Which rows fire at an event, and what one item of a shelf does at it.

#![tactic(auto)]

pub mod at;
mod cells;
pub mod collect;
mod conditions;
pub mod effect;
pub mod effects;
mod making;
mod one;
mod patterns;
mod slots;

pub use at::SheetEvent;
pub use collect::item_into;
pub use effect::Effect;
pub use effects::{Findings, Moves};
pub use one::{item_findings, item_moves};
pub use sheets::state_of;

// Events as records of bytes: a reader over a batch, and the writer of one record.

#![tactic(auto)]

mod decode;
mod encode;
pub mod event;
pub mod fields;
pub mod reader;
pub mod reading;
mod text;
pub mod writing;

pub use event::Event;
pub use reader::Reader;
pub use writing::write;

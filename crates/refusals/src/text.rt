// Refusals as text for people.
ghost use Rattle.std.specs.Prelude.{Some};
ghost use Rattle.refusals.specs.Telling.{broken_text, layer_text, refusal_text, table_text};

use crate::refusal::{Broken, Layer, Refusal, Table};
use std::fmt;

impl fmt::Display for Layer {
    ghost output = { λ l. Some (layer_text l) };

    fn fmt<W: fmt::Write>(&self, f: &mut fmt::Formatter<W>) -> fmt::Result {
        match self {
            Layer::Sheet => f.write_str("sheet"),
            Layer::Record => f.write_str("record"),
            Layer::Book => f.write_str("book"),
            Layer::Shelf => f.write_str("shelf"),
        }
    }
}

impl fmt::Display for Table {
    ghost output = { λ t. Some (table_text t) };

    fn fmt<W: fmt::Write>(&self, f: &mut fmt::Formatter<W>) -> fmt::Result {
        match self {
            Table::States => f.write_str("states"),
            Table::Rows => f.write_str("rows"),
            Table::Constants => f.write_str("constants"),
        }
    }
}

impl fmt::Display for Broken {
    ghost output = { λ b. Some (broken_text b) };

    fn fmt<W: fmt::Write>(&self, f: &mut fmt::Formatter<W>) -> fmt::Result {
        match self {
            Broken::State(n) => write!(f, "state {n}"),
            Broken::Kind(n) => write!(f, "event kind {n}"),
            Broken::Row(n) => write!(f, "row {n}"),
        }
    }
}

impl fmt::Display for Refusal {
    ghost output = { λ r. Some (refusal_text r) };

    fn fmt<W: fmt::Write>(&self, f: &mut fmt::Formatter<W>) -> fmt::Result {
        match *self {
            Refusal::TableTooLong { table } => write!(f, "there are too many {table}"),
            Refusal::RuleBroken { broken } => write!(f, "{broken} breaks a rule of sheets"),
            Refusal::InitialStates => {
                f.write_str("no state is initial, or an initial state has parameters")
            }
            Refusal::Malformed { place } => write!(f, "not a record, at byte {place}"),
            Refusal::WrongPhase => f.write_str("the book is not in the phase for this call"),
            Refusal::TooManyEvents { .. } => {
                f.write_str("the book has accepted 1,000,000 events already")
            }
            Refusal::TooManyMoves { .. } => f.write_str("more moves than the buffer has places"),
            Refusal::TooManyFindings { .. } => {
                f.write_str("more findings than the buffer has places")
            }
            Refusal::ShelfFull { .. } => f.write_str("more items than the shelf's limit"),
            Refusal::ShelfNotEmpty => f.write_str("the shelf holds an item already"),
            Refusal::UnknownName => f.write_str("no state has a name over 31"),
            Refusal::BufferTooShort { needed } => {
                write!(f, "the buffer is too short: {needed} bytes are needed")
            }
        }
    }
}

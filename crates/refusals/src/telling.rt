// How a refusal is told: by its number, its layer and its place.
ghost use Rattle.std.specs.Prelude.{◌≡◌};
ghost use Rattle.refusals.specs.Telling.{broken_place, table_place, told_of};

use crate::refusal::{Broken, Layer, Refusal, Table};

impl Table {
    fn place(self) -> usize
        ensures { result ≡ table_place self }
    {
        match self {
            Table::States => 1,
            Table::Rows => 2,
            Table::Constants => 3,
        }
    }
}

impl Broken {
    fn place(self) -> usize
        ensures { result ≡ broken_place self }
    {
        match self {
            Broken::State(n) => 1000 + usize::from(n),
            Broken::Kind(n) => 2000 + usize::from(n),
            Broken::Row(n) => usize::from(n),
        }
    }
}

impl Refusal {
    // The refusal's number, from 1 to 12.
    pub fn number(self) -> u8
        ensures { result ≡ (told_of self).number }
    {
        match self {
            Refusal::TableTooLong { .. } => 1,
            Refusal::RuleBroken { .. } => 2,
            Refusal::InitialStates => 3,
            Refusal::Malformed { .. } => 4,
            Refusal::WrongPhase => 5,
            Refusal::TooManyEvents { .. } => 6,
            Refusal::TooManyMoves { .. } => 7,
            Refusal::TooManyFindings { .. } => 8,
            Refusal::ShelfFull { .. } => 9,
            Refusal::ShelfNotEmpty => 10,
            Refusal::UnknownName => 11,
            Refusal::BufferTooShort { .. } => 12,
        }
    }

    // The layer that refuses.
    pub fn layer(self) -> Layer
        ensures { result ≡ (told_of self).layer }
    {
        match self {
            Refusal::TableTooLong { .. } | Refusal::RuleBroken { .. } | Refusal::InitialStates => {
                Layer::Sheet
            }
            Refusal::Malformed { .. } | Refusal::BufferTooShort { .. } => Layer::Record,
            Refusal::ShelfFull { .. } | Refusal::ShelfNotEmpty => Layer::Shelf,
            Refusal::WrongPhase
            | Refusal::TooManyEvents { .. }
            | Refusal::TooManyMoves { .. }
            | Refusal::TooManyFindings { .. }
            | Refusal::UnknownName => Layer::Book,
        }
    }

    // Where in the sheet, the bytes or the batch; 0 where there is no such place.
    pub fn place(self) -> usize
        ensures { result ≡ (told_of self).place }
    {
        match self {
            Refusal::TableTooLong { table } => table.place(),
            Refusal::RuleBroken { broken } => broken.place(),
            Refusal::Malformed { place }
            | Refusal::TooManyEvents { place }
            | Refusal::TooManyMoves { place }
            | Refusal::TooManyFindings { place }
            | Refusal::ShelfFull { place } => place,
            Refusal::BufferTooShort { needed } => needed,
            Refusal::InitialStates
            | Refusal::WrongPhase
            | Refusal::ShelfNotEmpty
            | Refusal::UnknownName => 0,
        }
    }
}

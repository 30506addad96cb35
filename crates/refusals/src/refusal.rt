// The layer whose rule was not met.
#[derive(Clone, Copy, PartialEq, Eq)]
pub enum Layer {
    Sheet,
    Record,
    Book,
    Shelf,
}

// The tables of a sheet whose length is limited.
#[derive(Clone, Copy, PartialEq, Eq)]
pub enum Table {
    States,
    Rows,
    Constants,
}

// What breaks a rule of sheets: a state, an event kind or a row, by its number from 0.
#[derive(Clone, Copy, PartialEq, Eq)]
pub enum Broken {
    State(u8),
    Kind(u8),
    Row(u8),
}

// Why a call says no.
#[derive(Clone, Copy, PartialEq, Eq)]
pub enum Refusal {
    // A table of a sheet is too long.
    TableTooLong { table: Table },
    // A rule that every sheet keeps is broken.
    RuleBroken { broken: Broken },
    // No state is initial, or an initial state has parameters.
    InitialStates,
    // Bytes that are no record, at the place of the offending byte; or an event that has no record, at place 0.
    Malformed { place: usize },
    // The call does not fit the book's phase.
    WrongPhase,
    // The book has accepted as many events as it may; in a batch, the place is the record's first byte, here and in the next three.
    TooManyEvents { place: usize },
    // More moves than the lent buffer has places.
    TooManyMoves { place: usize },
    // More findings than the lent buffer has places.
    TooManyFindings { place: usize },
    // The new set of items is above the shelf's limit.
    ShelfFull { place: usize },
    // A book is to be opened on a shelf that holds an item.
    ShelfNotEmpty,
    // Counts are asked for a state name that is too large.
    UnknownName,
    // A record needs more bytes than the lent buffer has.
    BufferTooShort { needed: usize },
}

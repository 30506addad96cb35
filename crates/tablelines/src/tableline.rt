// A line that builds tables.
use sheets::{Cell, Condition, Entry, State};

// One more part of the latest row.
#[derive(Clone, Copy)]
pub enum RowLine {
    Cell(Cell),
    Condition(Condition),
    Entry(Entry),
}

#[derive(Clone, Copy)]
pub enum TableLine<V> {
    // Empties the tables.
    Clear,
    // One more state.
    State(State),
    // One more constant.
    Constant(V),
    // Marks an event kind as watched.
    Watch { kind: u8 },
    // Sets the key field of an event kind.
    Key { kind: u8, field: u8 },
    // One more row.
    Row { source: u8, kind: u8 },
    // One more part of the latest row.
    InRow(RowLine),
}

// The tables of a sheet, as a rule writer makes them. States, rows and constants are numbered from 0; parameters, fields and slots from 1.

// The most states, rows and constants of a sheet.
pub const MOST_STATES: usize = 32;

pub const MOST_ROWS: usize = 256;

pub const MOST_CONSTANTS: usize = 256;

// The most parameters of a state.
pub const MOST_PARAMETERS: u8 = 3;

// The largest field, and the largest slot.
pub const LARGEST_FIELD: u8 = 8;

pub const LARGEST_SLOT: u8 = 4;

// How many event kinds there are.
pub const KINDS: usize = 64;

// A state: how many parameters its items have, and its marks.
#[derive(Clone, Copy, PartialEq, Eq, Default)]
pub struct State {
    // 0 to 3
    pub parameters: u8,
    // its item is put in when a book is opened
    pub init: bool,
    // a fired row does not take its item out
    pub always: bool,
    // its item is a finding if it is open at the close
    pub hot: bool,
    // its item lapses at a watched event at which none of its rows fires
    pub step: bool,
    // as step, and the lapse is a finding
    pub next: bool,
}

// What a cell wants of its field.
#[derive(Clone, Copy, PartialEq, Eq)]
pub enum Want {
    // any value
    Any,
    // the constant of that number
    Constant(u8),
    // the item's own parameter of that number
    Own(u8),
    // any value, which is bound to the slot of that number
    Bind(u8),
    // the value that an earlier cell bound to the slot of that number
    Slot(u8),
}

// A cell: a field from 1 to 8, and what is wanted of it.
#[derive(Clone, Copy, PartialEq, Eq)]
pub struct Cell {
    pub field: u8,
    pub want: Want,
}

// An argument of a pattern: a constant, an own parameter, a bound slot, or any value.
#[derive(Clone, Copy, PartialEq, Eq)]
pub enum Argument {
    Constant(u8),
    Own(u8),
    Slot(u8),
    Any,
}

// None to three arguments, one for each parameter, so that none is left out in between.
#[derive(Clone, Copy, PartialEq, Eq)]
pub enum Arguments {
    Nothing,
    One(Argument),
    Two(Argument, Argument),
    Three(Argument, Argument, Argument),
}

// A state with arguments.
#[derive(Clone, Copy, PartialEq, Eq)]
pub struct Pattern {
    pub state: u8,
    pub arguments: Arguments,
}

// A condition: an item of the pattern is open or, negated, none is.
#[derive(Clone, Copy, PartialEq, Eq)]
pub struct Condition {
    pub negated: bool,
    pub pattern: Pattern,
}

// What a fired row does: nothing, a finding, an item put in, or an item taken out.
#[derive(Clone, Copy, PartialEq, Eq)]
pub enum Entry {
    Ok,
    Error,
    Ask(Pattern),
    Strike(Pattern),
}

// A row: what an item of its source state does at an event of its kind.
#[derive(Clone, Copy, PartialEq, Eq)]
pub struct Row {
    pub source: u8,
    pub kind: u8,
    pub cells: [Option<Cell>; 4],
    pub conditions: [Option<Condition>; 2],
    pub entries: [Option<Entry>; 4],
}

// What a sheet says of an event kind: whether it is watched, and its key field from 1 to 8, or 0 for none.
#[derive(Clone, Copy, PartialEq, Eq, Default)]
pub struct EventKind {
    pub watched: bool,
    pub key: u8,
}

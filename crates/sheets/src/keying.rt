// Which sheets are keyed.
ghost use Rattle.std.specs.Prelude.{◌≡◌};
ghost use Rattle.sheets.specs.Keyed.{is_argument, is_first, key_argument, keyed_cell, keyed_condition, keyed_entry, keyed_parts, keyed_pattern, keyed_row, keyed_state};
ghost use Rattle.sheets.specs.Tables.{first_argument};
ghost use Rattle.sheets.specs.Words.{every, present, some};

use crate::lookup::{kind_of, state_of};
use crate::tables::{
    Argument, Arguments, Cell, Condition, Entry, EventKind, Pattern, Row, State, Want,
};

fn state_keyed(state: &State) -> bool
    ensures { result ≡ keyed_state state.now }
{
    (state.parameters > 0 || state.init && state.always) && !state.step && !state.next
}

// Whether the states are those of a keyed sheet.
pub fn states_keyed(states: &[State]) -> bool
    ensures { result ≡ every keyed_state states.now }
{
    states.iter().all(state_keyed)
}

// The argument that stands for the key, where a cell on the key field wants this and the row's source has so many parameters.
fn key_argument(parameters: u8, want: Want) -> Option<Argument>
    ensures { result ≡ key_argument parameters want }
{
    match want {
        Want::Own(1) => Some(Argument::Own(1)),
        Want::Bind(slot) if parameters == 0 => Some(Argument::Slot(slot)),
        _ => None,
    }
}

// Whether two arguments that can stand for a key, an own parameter or a slot, are the same.
fn is_argument(key: Argument, other: Argument) -> bool
    ensures { result ≡ is_argument key other }
{
    matches!(key, Argument::Own(_) | Argument::Slot(_)) && key == other
}

fn is_first(key: Argument, arguments: Arguments) -> bool
    ensures { result ≡ is_first key (first_argument arguments) }
{
    arguments
        .first()
        .is_some_and(|first| is_argument(key, first))
}

// What the parts of a keyed row are judged by: the states, and the argument that stands for the key.
#[derive(Clone, Copy)]
struct Key<'a> {
    states: &'a [State],
    argument: Argument,
}

impl Key<'_> {
    fn pattern_keyed(self, pattern: Pattern) -> bool
        ensures { result ≡ keyed_pattern self.entry.states.now self.entry.argument pattern }
    {
        state_of(self.states, pattern.state).parameters > 0
            && is_first(self.argument, pattern.arguments)
    }

    fn condition_keyed(self, condition: Condition) -> bool
        ensures { result ≡ keyed_condition self.entry.states.now self.entry.argument condition }
    {
        self.pattern_keyed(condition.pattern)
    }

    fn entry_keyed(self, entry: Entry) -> bool
        ensures { result ≡ keyed_entry self.entry.states.now self.entry.argument entry }
    {
        match entry {
            Entry::Ok | Entry::Error => true,
            Entry::Ask(pattern) | Entry::Strike(pattern) => self.pattern_keyed(pattern),
        }
    }

    fn conditions_keyed(self, conditions: &[Option<Condition>]) -> bool
        ensures { result ≡ every (keyed_condition self.entry.states.now self.entry.argument) (present conditions.now) }
    {
        conditions
            .iter()
            .flatten()
            .all(|condition| self.condition_keyed(*condition))
    }

    fn entries_keyed(self, entries: &[Option<Entry>]) -> bool
        ensures { result ≡ every (keyed_entry self.entry.states.now self.entry.argument) (present entries.now) }
    {
        entries
            .iter()
            .flatten()
            .all(|entry| self.entry_keyed(*entry))
    }
}

// Whether each condition, ask and strike of the row has the key as its first argument.
fn parts_keyed(states: &[State], row: &Row, key: Option<Argument>) -> bool
    ensures { result ≡ keyed_parts states.now row.now key }
{
    match key {
        Some(argument) => {
            let key = Key { states, argument };
            key.conditions_keyed(&row.conditions) && key.entries_keyed(&row.entries)
        }
        None => false,
    }
}

// Whether the row has its key by a cell on the key field.
fn cell_keyed(states: &[State], row: &Row, field: u8, cell: Cell) -> bool
    ensures { result ≡ keyed_cell states.now row.now field cell }
{
    let parameters = state_of(states, row.source).parameters;
    cell.field == field && parts_keyed(states, row, key_argument(parameters, cell.want))
}

// Whether the row has its key by one of its cells.
fn cells_keyed(states: &[State], row: &Row, field: u8) -> bool
    ensures { result ≡ some (keyed_cell states.now row.now field) (present row.now.cells) }
{
    row.cells
        .iter()
        .flatten()
        .any(|cell| cell_keyed(states, row, field, *cell))
}

fn row_keyed(states: &[State], kinds: &[EventKind], row: &Row) -> bool
    ensures { result ≡ keyed_row states.now kinds.now row.now }
{
    let field = kind_of(kinds, row.kind).key;
    field > 0 && cells_keyed(states, row, field)
}

// Whether the rows are those of a keyed sheet with such states and event kinds.
pub fn rows_keyed(states: &[State], kinds: &[EventKind], rows: &[Row]) -> bool
    ensures { result ≡ every (keyed_row states.now kinds.now) rows.now }
{
    rows.iter().all(|row| row_keyed(states, kinds, row))
}

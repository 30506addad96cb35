// What a table says of a number: of a state's name, and of an event kind.
ghost use Rattle.std.specs.Prelude.{◌≡◌};
ghost use Rattle.sheets.specs.Tables.{kind_of, state_of};

use crate::tables::{EventKind, State};

// The state of that name, without marks and parameters where the sheet does not name it.
pub fn state_of(states: &[State], name: u8) -> State
    ensures { result ≡ state_of states.now name }
{
    states.get(usize::from(name)).copied().unwrap_or_default()
}

// What is said of an event kind, not watched and without a key field where the sheet does not name it.
pub fn kind_of(kinds: &[EventKind], kind: u8) -> EventKind
    ensures { result ≡ kind_of kinds.now kind }
{
    kinds.get(usize::from(kind)).copied().unwrap_or_default()
}

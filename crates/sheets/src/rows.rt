// The rules of states, event kinds and rows.
ghost use Rattle.std.specs.Prelude.{◌≡◌};
ghost use Rattle.sheets.specs.Sound.{sound_init, sound_kind, sound_row, sound_state};

use crate::lookup::state_of;
use crate::names::Names;
use crate::tables::{EventKind, KINDS, LARGEST_FIELD, MOST_PARAMETERS, Row, State};

pub fn state_sound(state: &State) -> bool
    ensures { result ≡ sound_state state.now }
{
    state.parameters <= MOST_PARAMETERS
}

// Whether an initial state has no parameters.
pub fn init_sound(state: &State) -> bool
    ensures { result ≡ sound_init state.now }
{
    !state.init || state.parameters == 0
}

pub fn kind_sound(kind: &EventKind) -> bool
    ensures { result ≡ sound_kind kind.now }
{
    kind.key <= LARGEST_FIELD
}

// Whether a row is sound among some states and so many constants.
pub fn row_sound(states: &[State], constants: usize, row: &Row) -> bool
    ensures { result ≡ sound_row states.now constants row.now }
{
    let names = Names {
        states,
        constants,
        parameters: state_of(states, row.source).parameters,
        cells: &row.cells,
    };
    usize::from(row.source) < states.len()
        && usize::from(row.kind) < KINDS
        && names.cells_sound()
        && names.conditions_sound(&row.conditions)
        && names.entries_sound(&row.entries)
}

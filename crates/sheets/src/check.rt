// The check of a sheet's tables.
ghost use Rattle.std.specs.Prelude.{◌≡◌, ◌≤◌, length};
ghost use Rattle.sheets.specs.Keyed.{keyed_tables};
ghost use Rattle.refusals.specs.Telling.{answer_of};
ghost use Rattle.sheets.specs.Loading.{broken_at, broken_rule, initials, load_refusal, too_long};
ghost use Rattle.sheets.specs.Sound.{sound_init, sound_kind, sound_row, sound_state};
ghost use Rattle.sheets.specs.Words.{every, first_failing, some};
ghost use Rattle.sheets.specs.declared.tables.State.{State};
ghost use Rattle.refusals.specs.declared.refusal.Broken.TheVariants as broken;

use crate::keying::{rows_keyed, states_keyed};
use crate::rows::{init_sound, kind_sound, row_sound, state_sound};
use crate::tables::{EventKind, KINDS, MOST_CONSTANTS, MOST_ROWS, MOST_STATES, Row, State};
use refusals::{Broken, Refusal, Table};

// No table is too long.
fn check_lengths(states: usize, rows: usize, constants: usize) -> Result<(), Refusal>
    ensures { result ≡ answer_of (too_long states rows constants) }
{
    let table = if states > MOST_STATES {
        Table::States
    } else if rows > MOST_ROWS {
        Table::Rows
    } else if constants > MOST_CONSTANTS {
        Table::Constants
    } else {
        return Ok(());
    };
    Err(Refusal::TableTooLong { table })
}

// No state breaks a rule.
fn check_states(states: &[State]) -> Result<(), Refusal>
    requires { length states.now ≤ 32 }
    ensures { result ≡ answer_of (broken_at broken.State (first_failing sound_state states.now)) }
{
    match states.iter().position(|state| !state_sound(state)) {
        Some(n) => Err(Refusal::RuleBroken {
            broken: Broken::State(n as u8),
        }),
        None => Ok(()),
    }
}

// No event kind breaks a rule.
fn check_kinds(kinds: &[EventKind; KINDS]) -> Result<(), Refusal>
    ensures { result ≡ answer_of (broken_at broken.Kind (first_failing sound_kind kinds.now)) }
{
    match kinds.iter().position(|kind| !kind_sound(kind)) {
        Some(n) => Err(Refusal::RuleBroken {
            broken: Broken::Kind(n as u8),
        }),
        None => Ok(()),
    }
}

// No row breaks a rule.
fn check_rows(states: &[State], rows: &[Row], constants: usize) -> Result<(), Refusal>
    requires { length rows.now ≤ 256 }
    ensures { result ≡ answer_of (broken_at broken.Row (first_failing (sound_row states.now constants) rows.now)) }
{
    match rows
        .iter()
        .position(|row| !row_sound(states, constants, row))
    {
        Some(n) => Err(Refusal::RuleBroken {
            broken: Broken::Row(n as u8),
        }),
        None => Ok(()),
    }
}

// Whether a state is initial.
fn has_init(states: &[State]) -> bool
    ensures { result ≡ some (λ (d : State). d.init) states.now }
{
    states.iter().any(|state| state.init)
}

// Whether no initial state has parameters.
fn inits_sound(states: &[State]) -> bool
    ensures { result ≡ every sound_init states.now }
{
    states.iter().all(init_sound)
}

// A state is initial, and each that is has no parameters.
fn check_initials(states: &[State]) -> Result<(), Refusal>
    ensures { result ≡ answer_of (initials states.now) }
{
    if has_init(states) && inits_sound(states) {
        Ok(())
    } else {
        Err(Refusal::InitialStates)
    }
}

// No rule is broken: of states, of kinds and of rows, each by number.
fn check_rules(
    states: &[State],
    rows: &[Row],
    kinds: &[EventKind; KINDS],
    constants: usize,
) -> Result<(), Refusal>
    requires { (length states.now ≤ 32) × (length rows.now ≤ 256) }
    ensures { result ≡ answer_of (broken_rule states.now rows.now kinds.now constants) }
{
    check_states(states)?;
    check_kinds(kinds)?;
    check_rows(states, rows, constants)
}

// Why the tables are not loaded, if they are not.
pub fn check(
    states: &[State],
    rows: &[Row],
    kinds: &[EventKind; KINDS],
    constants: usize,
) -> Result<(), Refusal>
    ensures { result ≡ answer_of (load_refusal states.now rows.now kinds.now constants) }
{
    check_lengths(states.len(), rows.len(), constants)?;
    check_rules(states, rows, kinds, constants)?;
    check_initials(states)
}

// Whether the tables are those of a keyed sheet.
pub fn is_keyed(states: &[State], rows: &[Row], kinds: &[EventKind; KINDS]) -> bool
    ensures { result ≡ keyed_tables states.now rows.now kinds.now }
{
    states_keyed(states) && rows_keyed(states, kinds, rows)
}

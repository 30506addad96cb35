// The plain tables of a loaded sheet, with what the check has found of them.
ghost use Rattle.std.specs.Prelude.{◌≡◌, true};
ghost use Rattle.sheets.specs.Keyed.{keyed_tables};
ghost use Rattle.sheets.specs.Sound.{sound_tables};

use crate::tables::{EventKind, KINDS, Row, State};

#[derive(Drop)]
pub struct Table {
    pub(crate) states: Vec<State>,
    pub(crate) rows: Vec<Row>,
    pub(crate) kinds: [EventKind; KINDS],
    // how many constants the sheet has
    pub(crate) constants: usize,
    pub(crate) keyed: bool,
    ghost sound: { sound_tables states.items rows.items kinds constants ≡ true },
    ghost found: { keyed ≡ keyed_tables states.items rows.items kinds },
}

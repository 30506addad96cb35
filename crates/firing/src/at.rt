// A sheet's tables, and the event that is taken by them.
ghost use Rattle.std.specs.Prelude.{◌≡◌, true, length};
ghost use Rattle.sheets.specs.Sound.{sound_tables};

use records::Event;
use sheets::{EventKind, Row, State};

#[derive(Drop)]
pub struct SheetEvent<'a, 'b, V> {
    pub states: &'a [State],
    pub rows: &'a [Row],
    pub kinds: &'a [EventKind],
    pub constants: &'a [V],
    pub event: &'b Event<V>,
    ghost sound: { sound_tables states.now rows.now kinds.now (length constants.now) ≡ true },
}

// What a loaded sheet says, as slices.
ghost use Rattle.std.specs.Prelude.{◌≡◌, ◌≤◌, true, length};
ghost use Rattle.sheets.specs.Sound.{sound_tables};
ghost use Rattle.sheets.specs.View.{view_of};

use crate::sheet::Sheet;
use crate::tables::{EventKind, Row, State};

impl<'a, V> Sheet<'a, V> {
    // The states, in the order of their names; there are at most 32.
    pub fn states(&self) -> &[State]
        ensures value { result.now ≡ (view_of self.now).states }
        ensures few { length result.now ≤ 32 }
    {
        &self.table.states
    }

    // The rows, in order; all tables of a sheet are sound.
    pub fn rows(&self) -> &[Row]
        ensures value { result.now ≡ (view_of self.now).rows }
        ensures sound { sound_tables (view_of self.now).states (view_of self.now).rows (view_of self.now).kinds (length (view_of self.now).constants) ≡ true }
    {
        &self.table.rows
    }

    // What is said of each event kind.
    pub fn kinds(&self) -> &[EventKind]
        ensures { result.now ≡ (view_of self.now).kinds }
    {
        &self.table.kinds
    }

    // The constants, in order.
    pub fn constants(&self) -> &[V]
        ensures { result.now ≡ (view_of self.now).constants }
    {
        self.constants
    }
}

// Loading a sheet, and asking what was found of it.
ghost use Rattle.std.specs.Prelude.{◌≡◌, true, [], length, replicate, is_ok, if◌then◌else◌};
ghost use Rattle.sheets.specs.Keyed.{keyed_tables};
ghost use Rattle.sheets.specs.Loading.{load_refusal};
ghost use Rattle.sheets.specs.Sound.{sound_tables};
ghost use Rattle.sheets.specs.Tables.{sheet_of, unwatched};
ghost use Rattle.sheets.specs.View.{Loads, view_of};

use crate::check::{check, is_keyed};
use crate::fault::LoadError;
use crate::sheet::Sheet;
use crate::table::Table;
use crate::tables::{EventKind, KINDS, Row, State};
use std::alloc::Global;

// Tables with what the check has found of them.
fn table_of(
    states: Vec<State>,
    rows: Vec<Row>,
    kinds: [EventKind; KINDS],
    constants: usize,
    keyed: bool,
) -> Table
    requires sound { sound_tables states.items rows.items kinds constants ≡ true }
    requires keyed { keyed ≡ keyed_tables states.items rows.items kinds }
    ensures states { result.states ≡ states }
    ensures rows { result.rows ≡ rows }
    ensures kinds { result.kinds ≡ kinds }
    ensures constants { result.constants ≡ constants }
{
    Table {
        states,
        rows,
        kinds,
        constants,
        keyed,
    }
}

impl<'a, V> Sheet<'a, V> {
    // An empty sheet: no states, nothing watched.
    pub fn new(heap: Global) -> Self
        ensures { view_of result ≡ sheet_of [] [] (replicate 64 unwatched) [] }
    {
        Sheet {
            table: table_of(
                Vec::new(heap),
                Vec::new(heap),
                [EventKind::default(); KINDS],
                0,
                true,
            ),
            constants: &[],
        }
    }

    // Fills the sheet from tables, in place of those that it had. A load that fails leaves the sheet as it was.
    pub fn load(
        &mut self,
        heap: Global,
        states: &[State],
        rows: &[Row],
        kinds: &[EventKind; KINDS],
        constants: &'a [V],
    ) -> Result<(), LoadError>
        ensures answer { Loads result (load_refusal states.now rows.now kinds.now (length constants.now)) }
        ensures sheet { view_of self.new ≡ (if is_ok result then sheet_of states.now rows.now kinds.now constants.now else view_of self.old) }
    {
        check(states, rows, kinds, constants.len())?;
        let keyed = is_keyed(states, rows, kinds);
        let states = Vec::from_slice(heap, states)?;
        let rows = Vec::from_slice(heap, rows)?;
        *self = Sheet {
            table: table_of(states, rows, *kinds, constants.len(), keyed),
            constants,
        };
        Ok(())
    }

    // Whether the sheet is keyed: worked out when it was loaded.
    pub fn keyed(&self) -> bool
        ensures { result ≡ keyed_tables (view_of self.now).states (view_of self.now).rows (view_of self.now).kinds }
    {
        self.table.keyed
    }
}

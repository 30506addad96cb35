// What lines make of the tables, and what is made of the tables.
ghost use Rattle.std.specs.Prelude.{◌≡◌, ◌⊎◌, length, is_ok, IfOk, if◌then◌else◌, Ok, Err, MatchResult};
ghost use Rattle.sheets.specs.Loading.{load_refusal};
ghost use Rattle.sheets.specs.View.{Loads, view_of};
ghost use Rattle.scripts.specs.declared.misfit.Misfit.TheVariants.{NoMemory};
ghost use Rattle.tables.specs.Building.{rows_with};
ghost use Rattle.tables.specs.Tabling.{changed, no_tables, tables_of};

use crate::kinds::{set_key, watch};
use crate::rows::{bare_row, row_with};
use crate::tables::Tables;
use scripts::Misfit;
use sheets::tables::KINDS;
use sheets::{EventKind, LoadError, Row, Sheet};
use std::alloc::{AllocError, Global};
use tablelines::{RowLine, TableLine};

// One more part of the latest row.
fn in_last(rows: &mut Vec<Row>, line: RowLine) -> Result<(), Misfit>
    ensures { MatchResult result (λ _. rows_with rows.old.items line ≡ Ok rows.new.items) (λ e. (rows_with rows.old.items line ≡ Err e) × (rows.new.items ≡ rows.old.items)) }
{
    let Some(last) = rows.last_mut() else {
        return Err(Misfit::NoRow);
    };
    *last = row_with(*last, line)?;
    Ok(())
}

impl<V: Copy> Tables<V> {
    // Empty tables.
    pub fn new(heap: Global) -> Tables<V>
        ensures { tables_of result ≡ no_tables }
    {
        Tables {
            states: Vec::new(heap),
            rows: Vec::new(heap),
            kinds: [EventKind::default(); KINDS],
            constants: Vec::new(heap),
        }
    }

    // Does what a line says. A line that does not fit leaves the tables as they are.
    pub fn change(&mut self, heap: Global, line: TableLine<V>) -> Result<(), Misfit>
        ensures { MatchResult result (λ _. changed (tables_of self.old) line ≡ Ok (tables_of self.new)) (λ e. (tables_of self.new ≡ tables_of self.old) × ((e ≡ NoMemory) ⊎ (changed (tables_of self.old) line ≡ Err e))) }
    {
        match line {
            TableLine::Clear => *self = Tables::new(heap),
            TableLine::State(state) => self.states.push(state)?,
            TableLine::Constant(value) => self.constants.push(value)?,
            TableLine::Watch { kind } => watch(&mut self.kinds, kind)?,
            TableLine::Key { kind, field } => set_key(&mut self.kinds, kind, field)?,
            TableLine::Row { source, kind } => self.rows.push(bare_row(source, kind))?,
            TableLine::InRow(line) => in_last(&mut self.rows, line)?,
        }
        Ok(())
    }

    // The same tables once more.
    pub fn copy(&self, heap: Global) -> Result<Tables<V>, AllocError>
        ensures { IfOk result (λ t. tables_of t ≡ tables_of self.now) }
    {
        Ok(Tables {
            states: Vec::from_slice(heap, &self.states)?,
            rows: Vec::from_slice(heap, &self.rows)?,
            kinds: self.kinds,
            constants: Vec::from_slice(heap, &self.constants)?,
        })
    }

    // What they say of each event kind.
    fn kinds(&self) -> [EventKind; KINDS]
        ensures { result ≡ self.now.kinds }
    {
        self.kinds
    }

    // Loads the tables into a sheet. A load that fails leaves the sheet as it was.
    pub fn load<'a>(&'a self, heap: Global, sheet: &mut Sheet<'a, V>) -> Result<(), LoadError>
        ensures answer { Loads result (load_refusal (tables_of self.now).states (tables_of self.now).rows (tables_of self.now).kinds (length (tables_of self.now).constants)) }
        ensures sheet { view_of sheet.new ≡ (if is_ok result then tables_of self.now else view_of sheet.old) }
    {
        sheet.load(
            heap,
            &self.states,
            &self.rows,
            &self.kinds(),
            &self.constants,
        )
    }
}

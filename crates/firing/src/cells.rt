// Whether a row's cells hold at an event, for an item of the row's state.
ghost use Rattle.std.specs.Prelude.{◌≡◌};
ghost use Rattle.rules.specs.Kinds.{value_kind};
ghost use Rattle.rules.specs.Step.{cell_holds, constant_of, meets, meets_field, own_value};
ghost use Rattle.sheets.specs.Words.{every, present};
ghost use Rattle.firing.specs.At.{event_in, sheet_in};

use crate::at::SheetEvent;
use items::Item;
use sheets::{Cell, Row, Want};
use values::Value;

// An item's own parameter of a number from 1 to 3; at any other, the filler.
pub fn own_value<V: Value>(item: &Item<V>, number: u8) -> V
    ensures { result ≡ own_value (value_kind V.Value) item.now number }
{
    match number {
        1 => item.first,
        2 => item.second,
        3 => item.third,
        _ => V::filler(),
    }
}

impl<'a, 'b, V: Value> SheetEvent<'a, 'b, V> {
    // The constant of that number, or the filler.
    pub fn constant(&self, number: u8) -> V
        ensures { result ≡ constant_of (value_kind V.Value) (sheet_in self.now) number }
    {
        self.constants
            .get(usize::from(number))
            .copied()
            .unwrap_or(V::filler())
    }

    // Whether a value is what a cell of the row wants.
    fn meets(&self, item: &Item<V>, row: &Row, want: Want, value: &V) -> bool
        ensures { result ≡ meets (value_kind V.Value) (sheet_in self.now) (event_in self.now) item.now row.now want value.now }
    {
        match want {
            Want::Any | Want::Bind(_) => true,
            Want::Constant(number) => *value == self.constant(number),
            Want::Own(number) => *value == own_value(item, number),
            Want::Slot(slot) => *value == self.slot_value(row, slot),
        }
    }

    // Whether the field is there and has what the cell wants.
    fn cell_holds(&self, item: &Item<V>, row: &Row, cell: Cell) -> bool
        ensures { result ≡ cell_holds (value_kind V.Value) (sheet_in self.now) (event_in self.now) item.now row.now cell }
    {
        match self.event.field(cell.field) {
            Some(value) => self.meets(item, row, cell.want, &value),
            None => false,
        }
    }

    // Whether every cell of the row holds.
    pub fn cells_hold(&self, item: &Item<V>, row: &Row) -> bool
        ensures { result ≡ every (cell_holds (value_kind V.Value) (sheet_in self.now) (event_in self.now) item.now row.now) (present row.now.cells) }
    {
        row.cells
            .iter()
            .flatten()
            .all(|cell| self.cell_holds(item, row, *cell))
    }
}

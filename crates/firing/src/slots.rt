// The values of a row's slots.
ghost use Rattle.std.specs.Prelude.{◌≡◌};
ghost use Rattle.rules.specs.Kinds.{value_kind};
ghost use Rattle.rules.specs.Step.{slot_value};
ghost use Rattle.sheets.specs.Words.{present};
ghost use Rattle.sheets.specs.Sound.{binds};
ghost use Rattle.firing.specs.At.{event_in};

use crate::at::SheetEvent;
use sheets::{Cell, Row, Want};
use values::Value;

// Whether the cell binds the slot.
fn binds(slot: u8, cell: &Cell) -> bool
    ensures { result ≡ binds slot cell.now.want }
{
    cell.want == Want::Bind(slot)
}

impl<'a, 'b, V: Value> SheetEvent<'a, 'b, V> {
    // The value of a slot: that in the field of the first cell that binds it.
    pub fn slot_value(&self, row: &Row, slot: u8) -> V
        ensures { result ≡ slot_value (value_kind V.Value) (event_in self.now) (present row.now.cells) slot }
    {
        row.cells
            .iter()
            .flatten()
            .find(|cell| binds(slot, cell))
            .and_then(|cell| self.event.field(cell.field))
            .unwrap_or(V::filler())
    }
}

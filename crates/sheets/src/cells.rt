// The rules of a row's cells.
ghost use Rattle.std.specs.Prelude.{◌≡◌, []};
ghost use Rattle.std.specs.Option.{option_to_list};
ghost use Rattle.sheets.specs.Sound.{sound_cell, sound_cells, sound_want};
ghost use Rattle.sheets.specs.Words.{every, present};

use crate::names::{Names, up_to};
use crate::tables::{Cell, LARGEST_FIELD, LARGEST_SLOT, Want};

impl Names<'_> {
    // Whether a cell may want this, after the cells that are named.
    fn want_sound(self, want: Want) -> bool
        ensures { result ≡ sound_want self.entry.constants self.entry.parameters (present self.entry.cells.now) want }
    {
        match want {
            Want::Any => true,
            Want::Constant(number) => self.has_constant(number),
            Want::Own(number) => self.has_parameter(number),
            Want::Bind(slot) => up_to(LARGEST_SLOT, slot) && !self.is_bound(slot),
            Want::Slot(slot) => self.is_bound(slot),
        }
    }

    // Whether a cell is sound after them.
    fn cell_sound(self, cell: Cell) -> bool
        ensures { result ≡ sound_cell self.entry.constants self.entry.parameters (present self.entry.cells.now) cell }
    {
        up_to(LARGEST_FIELD, cell.field) && !self.is_taken(cell.field) && self.want_sound(cell.want)
    }

    // Whether a place for a cell is free, or its cell is sound after them.
    fn place_sound(self, place: Option<Cell>) -> bool
        ensures { result ≡ every (sound_cell self.entry.constants self.entry.parameters (present self.entry.cells.now)) (option_to_list place) }
    {
        match place {
            Some(cell) => self.cell_sound(cell),
            None => true,
        }
    }

    // Whether the cells that are named are sound, each after those before it.
    pub fn cells_sound(self) -> bool
        ensures { result ≡ sound_cells self.entry.constants self.entry.parameters [] (present self.entry.cells.now) }
    {
        for (i, place) in self.cells.iter().enumerate() {
            let earlier = Names {
                cells: &self.cells[0..i],
                ..self
            };
            if !earlier.place_sound(*place) {
                return false;
            }
        }
        true
    }
}

// What the parts of a row may name.
ghost use Rattle.std.specs.Prelude.{◌≡◌, nat_lt};
ghost use Rattle.sheets.specs.Sound.{binds, is_bound, is_taken, up_to};
ghost use Rattle.sheets.specs.Words.{present};

use crate::tables::{Cell, State, Want};

// The states, so many constants, so many parameters of the row's source, and what cells of the row bind.
#[derive(Clone, Copy)]
pub struct Names<'a> {
    pub states: &'a [State],
    pub constants: usize,
    pub parameters: u8,
    pub cells: &'a [Option<Cell>],
}

// Whether a number is one from 1 to a largest.
pub fn up_to(largest: u8, number: u8) -> bool
    ensures { result ≡ up_to largest number }
{
    1 <= number && number <= largest
}

// Whether a cell that wants this binds the slot.
fn binds(slot: u8, want: Want) -> bool
    ensures { result ≡ binds slot want }
{
    want == Want::Bind(slot)
}

impl Names<'_> {
    // Whether there is a constant of that number.
    pub fn has_constant(self, number: u8) -> bool
        ensures { result ≡ nat_lt number self.entry.constants }
    {
        usize::from(number) < self.constants
    }

    // Whether the source has a parameter of that number.
    pub fn has_parameter(self, number: u8) -> bool
        ensures { result ≡ up_to self.entry.parameters number }
    {
        up_to(self.parameters, number)
    }

    // Whether one of the cells binds the slot.
    pub fn is_bound(self, slot: u8) -> bool
        ensures { result ≡ is_bound slot (present self.entry.cells.now) }
    {
        self.cells
            .iter()
            .flatten()
            .any(|cell| binds(slot, cell.want))
    }

    // Whether one of the cells is on the field.
    pub fn is_taken(self, field: u8) -> bool
        ensures { result ≡ is_taken field (present self.entry.cells.now) }
    {
        self.cells.iter().flatten().any(|cell| field == cell.field)
    }
}

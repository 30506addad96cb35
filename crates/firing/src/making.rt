// The tables of a loaded sheet, at an event.
ghost use Rattle.std.specs.Prelude.{◌≡◌};
ghost use Rattle.sheets.specs.View.{view_of};
ghost use Rattle.firing.specs.At.{event_in, sheet_in};

use crate::at::SheetEvent;
use records::Event;
use sheets::Sheet;

impl<'a, 'b, V> SheetEvent<'a, 'b, V> {
    pub fn new(sheet: &'a Sheet<'_, V>, event: &'b Event<V>) -> Self
        ensures sheet { sheet_in result ≡ view_of sheet.now }
        ensures event { event_in result ≡ event.now }
    {
        SheetEvent {
            states: sheet.states(),
            rows: sheet.rows(),
            kinds: sheet.kinds(),
            constants: sheet.constants(),
            event,
        }
    }
}

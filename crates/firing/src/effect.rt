// What is collected of an item at an event, moves or findings.
ghost use Rattle.std.specs.Prelude.{◌≡◌, ℕ, Bool, false, List, []};
ghost use Rattle.items.specs.declared.item.Item.{Item};
ghost use Rattle.sheets.specs.Tables.{state_of};
ghost use Rattle.sheets.specs.declared.tables.Entry.{Entry};
ghost use Rattle.sheets.specs.declared.tables.Row.{Row};
ghost use Rattle.std.specs.Option.{option_to_list};
ghost use Rattle.firing.specs.declared.at.SheetEvent.{SheetEvent};

use crate::at::SheetEvent;
use items::Item;
use sheets::{Entry, Row};
use values::Value;

pub trait Effect<V: Value, X: Copy> {
    // What the item itself gives, by whether a row of it fires.
    ghost of_item: { Self → SheetEvent V → Item V → Bool → List X };

    // What an entry of a fired row gives; the row has that number.
    ghost of_entry: { Self → SheetEvent V → Item V → Row → ℕ → Entry → List X };

    fn of_item(&self, at: &SheetEvent<'_, '_, V>, item: &Item<V>, fired: bool) -> Option<X>
        ensures { option_to_list result ≡ of_item self.now at.now item.now fired };

    fn of_entry(
        &self,
        at: &SheetEvent<'_, '_, V>,
        item: &Item<V>,
        row: &Row,
        number: u8,
        entry: Entry,
    ) -> Option<X>
        ensures { option_to_list result ≡ of_entry self.now at.now item.now row.now number entry };

    // An item without a fired row that is neither step nor next gives nothing.
    ghost quiet: { (w : Self) (s : SheetEvent V) (x : Item V) → (state_of s.states.now x.name).step ≡ false → (state_of s.states.now x.name).next ≡ false → of_item w s x false ≡ [] };
}

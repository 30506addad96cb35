// What is listed of a shelf: the items of some names, each shown as something.
ghost use Rattle.std.specs.Prelude.{◌≡◌, ℕ, Bool};
ghost use Rattle.items.specs.declared.item.Item.{Item};

use items::Item;
use values::Value;

pub trait Listing<V: Value, X: Copy> {
    // The items of that name are listed.
    ghost takes: { Self → ℕ → Bool };

    // What is put into the list for an item.
    ghost shows: { Self → Item V → X };

    // Whether the items of that name are listed.
    fn takes(&self, name: u8) -> bool
        ensures { result ≡ takes self.now name };

    // What is put into the list for an item.
    fn show(&self, item: &Item<V>) -> X
        ensures { result ≡ shows self.now item.now };
}

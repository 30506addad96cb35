// A shelf: a bounded set of items that loses nothing.
ghost use Rattle.std.specs.Prelude.{◌≡◌, ℕ, ◌≤◌, true, List, length};
ghost use Rattle.items.specs.Ascending.{ascends, held, without};
ghost use Rattle.items.specs.Items.{item_order, ByteNames, next_of, add_answer, after_add};
ghost use Rattle.items.specs.declared.item.Item.{Item};

use crate::added::Added;
use crate::item::Item;
use values::Value;

pub trait Shelf {
    // The kind of value that its items hold.
    type Of: Value;

    // The items that it holds, each once, in ascending order.
    ghost items: { Self → List (Item Self.Of) };

    // How many it may hold, fixed when it is made.
    ghost limit: { Self → ℕ };

    // How many items it may hold.
    fn limit(&self) -> usize
        ensures { result ≡ limit self.now };

    // How many items it holds.
    fn count(&self) -> usize
        ensures { result ≡ length (items self.now) };

    // Whether it holds the item.
    fn holds(&self, item: &Item<Self::Of>) -> bool
        ensures { result ≡ held (item_order Self.Of.Ord.cmp) item.now (items self.now) };

    // Puts the item in, unless it is held already or the shelf is full.
    fn add(&mut self, item: Item<Self::Of>) -> Added
        ensures answer { result ≡ add_answer Self.Of.Ord.cmp (limit self.old) item (items self.old) }
        ensures items { items self.new ≡ after_add Self.Of.Ord.cmp result item (items self.old) }
        ensures limit { limit self.new ≡ limit self.old };

    // Takes the item out, and answers whether it was held.
    fn remove(&mut self, item: &Item<Self::Of>) -> bool
        ensures answer { result ≡ held (item_order Self.Of.Ord.cmp) item.now (items self.old) }
        ensures items { items self.new ≡ without (item_order Self.Of.Ord.cmp) item.now (items self.old) }
        ensures limit { limit self.new ≡ limit self.old };

    // The least item of that name, of that first value if one is given, above that item if one is given.
    fn next(
        &self,
        name: u8,
        first: Option<Self::Of>,
        above: Option<Item<Self::Of>>,
    ) -> Option<Item<Self::Of>>
        ensures { result ≡ next_of Self.Of.Ord.cmp name first above (items self.now) };

    ghost ascending: { (s : Self) → ascends (item_order Self.Of.Ord.cmp) (items s) ≡ true };

    ghost bounded: { (s : Self) → limit s ≤ 65536 };

    // A state name is a byte, so there is no item behind the name 255.
    ghost bytes: { (s : Self) → ByteNames (items s) };
}

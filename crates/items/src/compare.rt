// Items are ordered by name, then by first, second and third value.
ghost use Rattle.std.specs.Prelude.{◌≡◌};
ghost use Rattle.items.specs.Items.{item_order, wanted};

use crate::item::Item;
use std::cmp::Ordering;
use values::Value;

impl<V: Value> Item<V> {
    // Whether it is less than, equal to or greater than another.
    pub fn compare(&self, other: &Self) -> Ordering
        ensures { result ≡ item_order V.Ord.cmp self.now other.now }
    {
        self.cmp(other)
    }

    // Whether it is of that name, of that first value if one is given, and above that item if one is given.
    pub fn is_wanted(&self, name: u8, first: Option<V>, above: Option<Item<V>>) -> bool
        ensures { result ≡ wanted V.Ord.cmp name first above self.now }
    {
        self.name == name
            && first.is_none_or(|value| value == self.first)
            && above.is_none_or(|x| x < *self)
    }
}

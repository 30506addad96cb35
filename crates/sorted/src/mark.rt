// What is looked for among the items, and where an item stands against it.
ghost use Rattle.std.specs.Prelude.{◌≡◌};
ghost use Rattle.std.specs.Ordering.{is_lt};
ghost use Rattle.items.specs.Ascending.{met};
ghost use Rattle.sorted.specs.Place.{above_place, place_of};

use items::Item;
use std::cmp::Ordering;
use values::Value;

// One item; or the items of a name, of a first value if one is given, above an item if one is given.
#[derive(Clone, Copy)]
pub enum Mark<V> {
    At(Item<V>),
    Among(u8, Option<V>, Option<Item<V>>),
}

// An item that is not above the one given stands before.
fn above_place<V: Value>(above: Option<Item<V>>, item: &Item<V>) -> Ordering
    ensures { result ≡ above_place V.Ord.cmp above item.now }
{
    match above {
        Some(x) if x >= *item => Ordering::Less,
        _ => Ordering::Equal,
    }
}

impl<V: Value> Mark<V> {
    // Where an item stands: before what is looked for, at it, or past it.
    pub fn place(&self, item: &Item<V>) -> Ordering
        ensures { result ≡ place_of V.Ord.cmp self.now item.now }
    {
        match *self {
            Mark::At(x) => item.compare(&x),
            Mark::Among(name, first, above) => match item.name.cmp(&name) {
                Ordering::Equal => match first.map_or(Ordering::Equal, |f| item.first.cmp(&f)) {
                    Ordering::Equal => above_place(above, item),
                    place => place,
                },
                place => place,
            },
        }
    }

    // Whether an item stands before what is looked for.
    pub fn passes(&self, item: &Item<V>) -> bool
        ensures { result ≡ is_lt (place_of V.Ord.cmp self.now item.now) }
    {
        self.place(item).is_lt()
    }

    // The item, if there is one and it meets the mark.
    pub fn met(&self, item: Option<Item<V>>) -> Option<Item<V>>
        ensures { result ≡ met (place_of V.Ord.cmp self.now) item }
    {
        item.filter(|y| self.place(y).is_eq())
    }
}

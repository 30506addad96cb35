// Whether two shelves hold the same items.
ghost use Rattle.std.specs.Prelude.{◌≡◌, true, ◌&&◌, length, ◌==◌};
ghost use Rattle.items.specs.Ascending.{kept};
ghost use Rattle.items.specs.Items.{item_order, named};
ghost use Rattle.listing.specs.Listed.{all_held};

use items::Shelf;
use values::Value;

// Whether the other shelf holds each item of a name.
fn name_held<V: Value, S: Shelf<Of = V>, T: Shelf<Of = V>>(left: &S, other: &T, name: u8) -> bool
    ensures { result ≡ all_held (item_order V.Ord.cmp) (kept (named name) (S.Shelf.items left.now)) (T.Shelf.items other.now) }
{
    let mut above = None;
    while let Some(item) = left.next(name, None, above) {
        if !other.holds(&item) {
            return false;
        }
        above = Some(item);
    }
    true
}

// Whether the other shelf holds each item.
fn all_held<V: Value, S: Shelf<Of = V>, T: Shelf<Of = V>>(left: &S, other: &T) -> bool
    ensures { result ≡ all_held (item_order V.Ord.cmp) (S.Shelf.items left.now) (T.Shelf.items other.now) }
{
    (0..=u8::MAX).all(|name| name_held(left, other, name))
}

// Whether they hold as many items, and the other holds each of the first.
fn as_many_held<V: Value, S: Shelf<Of = V>, T: Shelf<Of = V>>(left: &S, other: &T) -> bool
    ensures { result ≡ (length (S.Shelf.items left.now) == length (T.Shelf.items other.now) && all_held (item_order V.Ord.cmp) (S.Shelf.items left.now) (T.Shelf.items other.now)) }
{
    left.count() == other.count() && all_held(left, other)
}

// Whether two shelves hold the same items.
pub fn same_items<V: Value, S: Shelf<Of = V>, T: Shelf<Of = V>>(left: &S, other: &T) -> bool
    ensures same { result ≡ true → S.Shelf.items left.now ≡ T.Shelf.items other.now }
    ensures differ { S.Shelf.items left.now ≡ T.Shelf.items other.now → result ≡ true }
{
    as_many_held(left, other)
}

// All items of a shelf as they are.
ghost use Rattle.std.specs.Prelude.{◌≡◌, true, length, take};
ghost use Rattle.values.specs.Form.{filled};

use crate::into::listed_into;
use crate::listing::Listing;
use items::{Item, Shelf};
use values::Value;

// The listing of all items as they are.
#[derive(Clone, Copy)]
pub struct Everything;

impl<V: Value> Listing<V, Item<V>> for Everything {
    ghost takes = { λ _ n. true };

    ghost shows = { λ _ x. x };

    fn takes(&self, name: u8) -> bool {
        true
    }

    fn show(&self, item: &Item<V>) -> Item<V> {
        *item
    }
}

// Writes the items in order as far as the room reaches.
fn write_items<V: Value, S: Shelf<Of = V>>(shelf: &S, room: &mut [Item<V>])
    ensures { room.new ≡ filled (take (length room.old) (S.Shelf.items shelf.now)) room.old }
{
    let _ = listed_into(&Everything, shelf, room);
}

// Writes the items in order as far as the room reaches, and answers how many there are.
pub fn list_items<V: Value, S: Shelf<Of = V>>(shelf: &S, room: &mut [Item<V>]) -> usize
    ensures room { room.new ≡ filled (take (length room.old) (S.Shelf.items shelf.now)) room.old }
    ensures count { result ≡ length (S.Shelf.items shelf.now) }
{
    write_items(shelf, room);
    shelf.count()
}

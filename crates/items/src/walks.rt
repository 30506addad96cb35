// Walks over any shelf.
ghost use Rattle.std.specs.Prelude.{◌≡◌, length, None, nat_eq};
ghost use Rattle.items.specs.Ascending.{kept};
ghost use Rattle.items.specs.Items.{next_of};

use crate::item::Item;
use crate::shelf::Shelf;
use values::Value;

// The next item of a name, after the one given or from the start.
fn next_of<S: Shelf>(shelf: &S, name: u8, last: Option<Item<S::Of>>) -> Option<Item<S::Of>>
    ensures { result ≡ next_of S.Of.Ord.cmp name None last (S.Shelf.items shelf.now) }
{
    shelf.next(name, None, last)
}

// How many items of a name a shelf holds.
pub fn count_of<S: Shelf>(shelf: &S, name: u8) -> usize
    ensures { result ≡ length (kept (λ y. nat_eq y.name name) (S.Shelf.items shelf.now)) }
{
    let total = shelf.count();
    let mut last = None;
    for count in 0..total {
        match next_of(shelf, name, last) {
            Some(item) => last = Some(item),
            None => return count,
        }
    }
    total
}

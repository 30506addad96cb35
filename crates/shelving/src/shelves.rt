// New shelves.
ghost use Rattle.std.specs.Prelude.{◌≡◌, [], IfOk, vec_len};
ghost use Rattle.anyshelf.specs.Meaning.{any_items, any_limit};
ghost use Rattle.items.specs.Items.{limit_of};
ghost use Rattle.shelving.specs.Adding.{added_all};

use crate::buffers::item_room;
use anyshelf::AnyShelf;
use booklines::Make;
use indexed::IndexedShelf;
use items::{Item, Shelf};
use scripts::ScriptValue;
use sorted::SortedShelf;
use std::alloc::{AllocError, Global};
use values::{Bucketed, Value};

// An empty shelf of a make.
fn empty_shelf<V: ScriptValue + Bucketed>(
    heap: Global,
    make: Make,
    cells: Vec<Item<V>>,
) -> Result<AnyShelf<V>, AllocError>
    ensures { IfOk result (λ s. (any_items s ≡ []) × (any_limit s ≡ limit_of (vec_len cells))) }
{
    match make {
        Make::Sorted => Ok(AnyShelf::Sorted(SortedShelf::new(cells))),
        Make::Indexed => Ok(AnyShelf::Indexed(IndexedShelf::new(heap, cells)?)),
    }
}

// Puts items on a shelf, as far as it has room.
fn add_all<S: Shelf>(shelf: &mut S, held: &[Item<S::Of>])
    ensures items { S.Shelf.items shelf.new ≡ added_all S.Of.Ord.cmp (S.Shelf.limit shelf.old) held.now (S.Shelf.items shelf.old) }
    ensures limit { S.Shelf.limit shelf.new ≡ S.Shelf.limit shelf.old }
{
    for item in held {
        let _ = shelf.add(*item);
    }
}

// A shelf of a make and so many cells, with some items on it.
pub fn shelf_of<V: ScriptValue + Bucketed>(
    heap: Global,
    make: Make,
    cells: usize,
    held: &[Item<V>],
) -> Result<AnyShelf<V>, AllocError>
    ensures { IfOk result (λ s. (any_items s ≡ added_all V.Ord.cmp (limit_of cells) held.now []) × (any_limit s ≡ limit_of cells)) }
{
    let mut shelf = empty_shelf(heap, make, item_room(heap, cells)?)?;
    add_all(&mut shelf, held);
    Ok(shelf)
}

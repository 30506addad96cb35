// The items stand at the front of the cells given, in ascending order.
ghost use Rattle.std.specs.Prelude.{◌≡◌, ◌≤◌, true, vec_items, vec_len, vec_capacity};
ghost use Rattle.items.specs.Ascending.{ascends};
ghost use Rattle.items.specs.Items.{ByteNames, item_order};
ghost use Rattle.std.proofs.Props.{props};

use items::Item;
use values::Value;

#[derive(Drop)]
pub struct SortedShelf<V: Value> {
    cells: Vec<Item<V>>,
    limit: usize,
    ghost within: { vec_len cells ≤ limit },
    ghost room: { limit ≤ vec_capacity cells },
    ghost bounded: { limit ≤ 65536 },
    // the items ascend, each once
    ghost ascending: { ascends (item_order V.Ord.cmp) (vec_items cells) ≡ true },
    // a state name is a byte
    ghost names: { ByteNames (vec_items cells) } by { Prim.hlevel props },
}

pub mod calls;

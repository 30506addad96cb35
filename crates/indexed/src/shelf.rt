// Items in cells, linked by number: `threads[cell]` and `chains[cell]` are the numbers of the next cells.
// The thread of a name has the cells of its items in ascending order, and starts at `threads[limit + name]`.
// The chain of a name and a bucket has the cells of its items in ascending order, and starts at `chains[limit + 1024 * name + bucket]`.
// A link of `limit` or more leads to no cell. `free` has the cells that hold no item.
ghost use Rattle.std.specs.Prelude.{◌≤◌, vec_items, vec_capacity};
ghost use Rattle.indexed.specs.Index.{Sound, order_of};
ghost use Rattle.indexed.specs.Props.{Sound-prop};

use items::Item;
use values::Bucketed;

#[derive(Drop)]
pub struct IndexedShelf<V: Bucketed> {
    cells: Vec<Item<V>>,
    threads: Vec<u32>,
    chains: Vec<u32>,
    free: Vec<u32>,
    limit: usize,
    ghost room: { limit ≤ vec_capacity free },
    // the threads and the chains lead through its items, and the other cells are free
    ghost sound: { Sound V.Ord.cmp V.Bucketed.bucket_of V.Value.blank (vec_items cells) (vec_items threads) (vec_items chains) (vec_items free) limit (order_of (vec_items threads) limit) } by { Sound-prop V.Ord.cmp V.Bucketed.bucket_of V.Value.blank (vec_items cells) (vec_items threads) (vec_items chains) (vec_items free) limit (order_of (vec_items threads) limit) },
}

pub mod calls;
mod finding;

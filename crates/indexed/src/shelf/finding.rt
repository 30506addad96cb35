// How an indexed shelf finds items and the places of items.
ghost use Rattle.std.specs.Prelude.{◌≡◌, ◌+◌, ◌*◌, ◌<◌, map, length, Some, None};
ghost use Rattle.items.specs.Ascending.{first_of, held};
ghost use Rattle.items.specs.Items.{item_order, next_of, wanted};
ghost use Rattle.indexed.specs.Links.{reached};
ghost use Rattle.indexed.specs.Index.{item_in, Walkable};
ghost use Rattle.indexed.specs.Meaning.{indexed_items, chain_last, thread_last, Located};

use super::IndexedShelf;
use crate::walk::{first_wanted, last_before};
use items::Item;
use std::cmp::Ordering;
use values::Bucketed;

// The number of the chain of a name and a first value.
fn chain_of<V: Bucketed>(name: u8, first: &V) -> usize
    ensures value { result ≡ name * 1024 + V.Bucketed.bucket_of first.now }
    ensures small { result < 262144 }
    ensures name { name < 256 }
{
    name as usize * 1024 + first.bucket()
}

impl<V: Bucketed> IndexedShelf<V> {
    // The last cell in the item's chain that holds less, or the chain's start.
    pub(super) fn chain_before(&self, item: &Item<V>) -> usize
        ensures value { result ≡ chain_last self.now item.now }
        ensures name { item.now.name < 256 }
    {
        let start = self.limit + chain_of(item.name, &item.first);
        last_before(&self.cells, &self.chains, self.limit, start, item)
    }

    // The cell of the item, if it is held: it stands in its chain right after what is less.
    pub(super) fn locate(&self, before: usize, item: &Item<V>) -> Option<u32>
        requires name { item.now.name < 256 }
        requires before { before ≡ chain_last self.now item.now }
        ensures { Located self.now item.now result }
    {
        let cell = self.chains[before];
        if cell as usize >= self.limit {
            return None;
        }
        match self.cells[cell as usize].compare(item) {
            Ordering::Equal => Some(cell),
            _ => None,
        }
    }

    // Whether the item stands in its chain right after what is less.
    pub(super) fn stands_after(&self, before: usize, item: &Item<V>) -> bool
        requires name { item.now.name < 256 }
        requires before { before ≡ chain_last self.now item.now }
        ensures { result ≡ held (item_order V.Ord.cmp) item.now (indexed_items self.now) }
    {
        self.locate(before, item).is_some()
    }

    // The last cell of the item's name that holds less, or the thread's start. The walk begins at the cell before the item in its chain, if there is one.
    pub(super) fn thread_before(&self, before: usize, item: &Item<V>) -> usize
        requires name { item.now.name < 256 }
        requires before { before ≡ chain_last self.now item.now }
        ensures { result ≡ thread_last self.now item.now }
    {
        if before < self.limit {
            last_before(&self.cells, &self.threads, self.limit, before, item)
        } else {
            let start = self.limit + item.name as usize;
            last_before(&self.cells, &self.threads, self.limit, start, item)
        }
    }

    // Where a walk to the next item of a name begins: at the item itself if it is held, else at the cell before it in its chain, else at the thread's start.
    pub(super) fn thread_start(&self, name: u8, above: Option<Item<V>>) -> usize
        ensures walk { Walkable (length self.now.cells.items) self.now.threads.items self.now.limit result }
        ensures first { first_of (wanted V.Ord.cmp name None above) (map (item_in V.Value.blank self.now.cells.items) (reached self.now.threads.items self.now.limit result self.now.limit)) ≡ next_of V.Ord.cmp name None above (indexed_items self.now) }
    {
        if let Some(x) = above {
            if x.name == name {
                let before = self.chain_before(&x);
                if let Some(cell) = self.locate(before, &x) {
                    return cell as usize;
                }
                if before < self.limit {
                    return before;
                }
            }
        }
        self.limit + name as usize
    }

    pub(super) fn next_in_thread(&self, name: u8, above: Option<Item<V>>) -> Option<Item<V>>
        ensures { result ≡ next_of V.Ord.cmp name None above (indexed_items self.now) }
    {
        let start = self.thread_start(name, above);
        first_wanted(
            &self.cells,
            &self.threads,
            self.limit,
            start,
            name,
            None,
            above,
        )
    }

    pub(super) fn next_in_chain(
        &self,
        name: u8,
        value: V,
        above: Option<Item<V>>,
    ) -> Option<Item<V>>
        ensures { result ≡ next_of V.Ord.cmp name (Some value) above (indexed_items self.now) }
    {
        let start = self.limit + chain_of(name, &value);
        first_wanted(
            &self.cells,
            &self.chains,
            self.limit,
            start,
            name,
            Some(value),
            above,
        )
    }
}

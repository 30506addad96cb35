// The calls of an indexed shelf.
ghost use Rattle.std.specs.Prelude.{◌≡◌, ◌+◌, ◌<◌, ◌≤◌, [], length, IfOk, vec_len, vec_capacity};
ghost use Rattle.items.specs.Ascending.{placed, without};
ghost use Rattle.items.specs.Items.{item_order, next_of, limit_of, add_answer, after_add};
ghost use Rattle.items.specs.declared.added.Added.TheVariants.{Put};
ghost use Rattle.indexed.specs.Links.{Numbered};
ghost use Rattle.indexed.specs.Meaning.{indexed_items, indexed_limit, chain_last, Holds};
ghost use Rattle.indexed.specs.ByteNames.{byte-names};
ghost use Rattle.std.proofs.Common.{rules, arith};

use super::IndexedShelf;
use crate::walk::{link, unlink};
use items::{Added, Item, Shelf, limit_of};
use std::alloc::{AllocError, Global};
use values::Bucketed;

// The numbers below n, with room for no more asked for later.
fn numbers(heap: Global, n: u32) -> Result<Vec<u32>, AllocError>
    ensures { IfOk result (λ v. Numbered n v.items × (n ≤ vec_capacity v)) }
{
    let mut all = Vec::with_capacity(heap, n as usize)?;
    for i in 0..n {
        all.push(i)?;
    }
    Ok(all)
}

impl<V: Bucketed> IndexedShelf<V> {
    // An empty shelf over the cells given: their number is the limit, or 65,536 if that is less.
    pub fn new(heap: Global, cells: Vec<Item<V>>) -> Result<Self, AllocError>
        ensures { IfOk result (λ s. (indexed_items s ≡ []) × (indexed_limit s ≡ limit_of (vec_len cells))) }
    {
        let limit = limit_of(cells.len());
        Self::over(heap, cells, limit)
    }

    // An empty shelf of that limit: no link leads to a cell, and all cells are free.
    fn over(heap: Global, cells: Vec<Item<V>>, limit: usize) -> Result<Self, AllocError>
        requires { limit ≡ limit_of (vec_len cells) }
        ensures { IfOk result (λ s. (indexed_items s ≡ []) × (indexed_limit s ≡ limit_of (vec_len cells))) }
    {
        let end = limit as u32;
        let threads = vec![in heap; end; limit + 256]?;
        let chains = vec![in heap; end; limit + 262144]?;
        let free = numbers(heap, end)?;
        Ok(IndexedShelf {
            cells,
            threads,
            chains,
            free,
            limit,
        })
    }

    // How many cells hold no item.
    fn free_cells(&self) -> usize
        ensures { length (indexed_items self.now) + result ≡ indexed_limit self.now }
    {
        self.free.len()
    }

    // Puts an item into a free cell, after what is less in its thread and its chain.
    fn put_in(&mut self, before: usize, item: Item<V>)
        requires name { item.name < 256 }
        requires before { before ≡ chain_last self.old item }
        requires answer { add_answer V.Ord.cmp (indexed_limit self.old) item (indexed_items self.old) ≡ Put }
        ensures items { indexed_items self.new ≡ placed (item_order V.Ord.cmp) item (indexed_items self.old) }
        ensures limit { indexed_limit self.new ≡ indexed_limit self.old }
    {
        let thread_before = self.thread_before(before, &item);
        match self.free.pop() {
            Some(cell) => {
                self.cells[cell as usize] = item;
                link(&mut self.threads, thread_before, cell);
                link(&mut self.chains, before, cell);
            }
            None => unreachable(),
        }
    }

    // Takes an item out of its thread and its chain, and frees its cell.
    fn take_out(&mut self, before: usize, cell: u32, item: &Item<V>)
        requires name { item.now.name < 256 }
        requires before { before ≡ chain_last self.old item.now }
        requires there { Holds self.old item.now cell }
        ensures items { indexed_items self.new ≡ without (item_order V.Ord.cmp) item.now (indexed_items self.old) }
        ensures limit { indexed_limit self.new ≡ indexed_limit self.old }
    {
        let thread_before = self.thread_before(before, item);
        unlink(&mut self.threads, thread_before, cell);
        unlink(&mut self.chains, before, cell);
        match self.free.push(cell) {
            Ok(_) => (),
            Err(_) => unreachable(),
        }
    }
}

impl<V: Bucketed> Shelf for IndexedShelf<V> {
    type Of = V;

    ghost items = { λ s. indexed_items s };

    ghost limit = { λ s. indexed_limit s };

    ghost ascending = { λ s. s.sound.rising };

    ghost bounded = { λ s. s.sound.most };

    ghost bytes = { λ s. byte-names s.sound };

    fn limit(&self) -> usize {
        self.limit
    }

    fn count(&self) -> usize {
        self.limit - self.free_cells()
    }

    // Walks the item's chain, as far as the item.
    fn holds(&self, item: &Item<V>) -> bool {
        let before = self.chain_before(item);
        self.stands_after(before, item)
    }

    // Walks the item's chain as far as the item, and from there on its thread: as many cells as stand between the two neighbours in the chain.
    fn add(&mut self, item: Item<V>) -> Added
        ensures answer { result ≡ add_answer V.Ord.cmp (indexed_limit self.old) item (indexed_items self.old) }
        ensures items { indexed_items self.new ≡ after_add V.Ord.cmp result item (indexed_items self.old) }
        ensures limit { indexed_limit self.new ≡ indexed_limit self.old }
    {
        let before = self.chain_before(&item);
        let present = self.stands_after(before, &item);
        match Added::rule(present, self.count(), self.limit) {
            Added::Put => {
                self.put_in(before, item);
                Added::Put
            }
            other => other,
        }
    }

    // Walks as `add` does.
    fn remove(&mut self, item: &Item<V>) -> bool {
        let before = self.chain_before(item);
        let Some(cell) = self.locate(before, item) else {
            return false;
        };
        self.take_out(before, cell, item);
        true
    }

    // With a first value, walks its chain. Without, walks the chain of the item given as far as that item, and takes the next cell of the thread.
    fn next(&self, name: u8, first: Option<V>, above: Option<Item<V>>) -> Option<Item<V>>
        ensures { result ≡ next_of V.Ord.cmp name first above (indexed_items self.now) }
    {
        match first {
            Some(value) => self.next_in_chain(name, value, above),
            None => self.next_in_thread(name, above),
        }
    }
}

// The calls of a sorted shelf.
ghost use Rattle.std.specs.Prelude.{◌≡◌, ◌+◌, ◌<◌, ◌≤◌, true, [], vec_len};
ghost use Rattle.std.specs.List.{slice_get};
ghost use Rattle.std.specs.Ordering.{is_eq};
ghost use Rattle.items.specs.Ascending.{leading, first_of, held, placed, without, pick};
ghost use Rattle.items.specs.Items.{item_order, next_of, limit_of, add_answer, after_add};
ghost use Rattle.items.specs.declared.added.Added.TheVariants.{Put};
ghost use Rattle.sorted.specs.Meaning.{sorted_items, sorted_limit};
ghost use Rattle.sorted.specs.Place.{place_of};
ghost use Rattle.sorted.specs.declared.mark.Mark.TheVariants.{At};

use super::SortedShelf;
use crate::mark::Mark;
use items::{Added, Item, Shelf, limit_of};
use std::cmp::Ordering;
use values::Value;

impl<V: Value> SortedShelf<V> {
    // An empty shelf over the cells given: their number is the limit, or 65,536 if that is less.
    pub fn new(mut cells: Vec<Item<V>>) -> Self
        ensures items { sorted_items result ≡ [] }
        ensures limit { sorted_limit result ≡ limit_of (vec_len cells) }
    {
        let limit = limit_of(cells.len());
        cells.clear();
        SortedShelf { cells, limit }
    }

    // The item at a place, or none past the end.
    fn item_at(&self, place: usize) -> Option<Item<V>>
        ensures { result ≡ slice_get (sorted_items self.now) place }
    {
        self.cells.get(place).copied()
    }

    // How many items stand before the mark: what is left is halved in each turn.
    fn seek(&self, mark: &Mark<V>) -> usize
        ensures { result ≡ leading (place_of V.Ord.cmp mark.now) (sorted_items self.now) }
    {
        self.cells.partition_point(|item| mark.passes(item))
    }

    // The item right after those that stand before the mark, if the mark meets it.
    fn find(&self, mark: &Mark<V>, place: usize) -> Option<Item<V>>
        requires place { place ≡ leading (place_of V.Ord.cmp mark.now) (sorted_items self.now) }
        ensures { result ≡ first_of (λ y. is_eq (place_of V.Ord.cmp mark.now y)) (sorted_items self.now) }
    {
        mark.met(self.item_at(place))
    }

    // Whether the item stands at its place.
    fn stands_at(&self, place: usize, item: &Item<V>) -> bool
        requires place { place ≡ leading (place_of V.Ord.cmp (At item.now)) (sorted_items self.now) }
        ensures { result ≡ held (item_order V.Ord.cmp) item.now (sorted_items self.now) }
    {
        self.find(&Mark::At(*item), place).is_some()
    }

    // Puts an item in at its place.
    fn put_in(&mut self, place: usize, item: Item<V>)
        requires place { place ≡ leading (place_of V.Ord.cmp (At item)) (sorted_items self.old) }
        requires answer { add_answer V.Ord.cmp (sorted_limit self.old) item (sorted_items self.old) ≡ Put }
        ensures items { sorted_items self.new ≡ placed (item_order V.Ord.cmp) item (sorted_items self.old) }
        ensures limit { sorted_limit self.new ≡ sorted_limit self.old }
    {
        match self.cells.insert(place, item) {
            Ok(_) => (),
            Err(_) => unreachable(),
        }
    }

    // Takes an item out from its place.
    fn take_out(&mut self, place: usize, item: &Item<V>)
        requires place { place ≡ leading (place_of V.Ord.cmp (At item.now)) (sorted_items self.old) }
        requires there { held (item_order V.Ord.cmp) item.now (sorted_items self.old) ≡ true }
        ensures items { sorted_items self.new ≡ without (item_order V.Ord.cmp) item.now (sorted_items self.old) }
        ensures limit { sorted_limit self.new ≡ sorted_limit self.old }
    {
        let _ = self.cells.remove(place);
    }
}

impl<V: Value> Shelf for SortedShelf<V> {
    type Of = V;

    ghost items = { λ s. sorted_items s };

    ghost limit = { λ s. sorted_limit s };

    ghost ascending = { λ s. s.ascending };

    ghost bounded = { λ s. s.bounded };

    ghost bytes = { λ s. s.names };

    fn limit(&self) -> usize {
        self.limit
    }

    fn count(&self) -> usize {
        self.cells.len()
    }

    // Found by halving.
    fn holds(&self, item: &Item<V>) -> bool {
        self.stands_at(self.seek(&Mark::At(*item)), item)
    }

    // Found by halving; the items above it move by one cell.
    fn add(&mut self, item: Item<V>) -> Added
        ensures answer { result ≡ add_answer V.Ord.cmp (sorted_limit self.old) item (sorted_items self.old) }
        ensures items { sorted_items self.new ≡ after_add V.Ord.cmp result item (sorted_items self.old) }
        ensures limit { sorted_limit self.new ≡ sorted_limit self.old }
    {
        let place = self.seek(&Mark::At(item));
        let present = self.stands_at(place, &item);
        match Added::rule(present, self.count(), self.limit) {
            Added::Put => {
                self.put_in(place, item);
                Added::Put
            }
            other => other,
        }
    }

    // Found by halving; the items above it move by one cell.
    fn remove(&mut self, item: &Item<V>) -> bool {
        let place = self.seek(&Mark::At(*item));
        if !self.stands_at(place, item) {
            return false;
        }
        self.take_out(place, item);
        true
    }

    // Found by halving, whether a first value is given or not.
    fn next(&self, name: u8, first: Option<V>, above: Option<Item<V>>) -> Option<Item<V>>
        ensures { result ≡ next_of V.Ord.cmp name first above (sorted_items self.now) }
    {
        let mark = Mark::Among(name, first, above);
        self.find(&mark, self.seek(&mark))
    }
}

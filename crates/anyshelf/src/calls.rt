// Each call is that of the shelf chosen.
ghost use Rattle.std.specs.Prelude.{◌≡◌};
ghost use Rattle.items.specs.Items.{next_of, add_answer, after_add};
ghost use Rattle.anyshelf.specs.Meaning.{any_items, any_limit};
ghost use Rattle.indexed.specs.ByteNames.{byte-names};
ghost use Rattle.anyshelf.specs.declared.any.AnyShelf.TheVariants.{Sorted, Indexed};
ghost use Rattle.std.proofs.Common.{rules};

use crate::any::AnyShelf;
use items::{Added, Item, Shelf};
use values::Bucketed;

impl<V: Bucketed> Shelf for AnyShelf<V> {
    type Of = V;

    ghost items = { λ s. any_items s };

    ghost limit = { λ s. any_limit s };

    ghost ascending = { Prim.search rules };

    ghost bounded = { Prim.search rules };

    ghost bytes = { elim [
      | Sorted s ↦ s.names
      | Indexed s ↦ byte-names s.sound
    ] };

    fn limit(&self) -> usize {
        match self {
            AnyShelf::Sorted(s) => s.limit(),
            AnyShelf::Indexed(s) => s.limit(),
        }
    }

    fn count(&self) -> usize {
        match self {
            AnyShelf::Sorted(s) => s.count(),
            AnyShelf::Indexed(s) => s.count(),
        }
    }

    fn holds(&self, item: &Item<V>) -> bool {
        match self {
            AnyShelf::Sorted(s) => s.holds(item),
            AnyShelf::Indexed(s) => s.holds(item),
        }
    }

    fn add(&mut self, item: Item<V>) -> Added
        ensures answer { result ≡ add_answer V.Ord.cmp (any_limit self.old) item (any_items self.old) }
        ensures items { any_items self.new ≡ after_add V.Ord.cmp result item (any_items self.old) }
        ensures limit { any_limit self.new ≡ any_limit self.old }
    {
        match self {
            AnyShelf::Sorted(s) => s.add(item),
            AnyShelf::Indexed(s) => s.add(item),
        }
    }

    fn remove(&mut self, item: &Item<V>) -> bool {
        match self {
            AnyShelf::Sorted(s) => s.remove(item),
            AnyShelf::Indexed(s) => s.remove(item),
        }
    }

    fn next(&self, name: u8, first: Option<V>, above: Option<Item<V>>) -> Option<Item<V>>
        ensures { result ≡ next_of V.Ord.cmp name first above (any_items self.now) }
    {
        match self {
            AnyShelf::Sorted(s) => s.next(name, first, above),
            AnyShelf::Indexed(s) => s.next(name, first, above),
        }
    }
}

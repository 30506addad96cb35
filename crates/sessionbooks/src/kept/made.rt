// The books of a session, as they are made.
ghost use Rattle.std.specs.Prelude.{◌≡◌, [], ◌∷◌, ◌++◌, is_ok, IfOk, if◌then◌else◌, OnOk};
ghost use Rattle.items.specs.Items.{limit_of};

use crate::kept::SessionBooks;
use answers::{Fault, Output};
use booklines::Make;
use books::Book;
use items::{Item, Shelf};
use scripts::{Misfit, ScriptValue};
use shelving::shelf_of;
use std::alloc::{AllocError, Global};
use std::io::Write;
use values::Bucketed;

impl<V: ScriptValue + Bucketed> SessionBooks<V> {
    // No book, and nothing held.
    pub fn new(heap: Global) -> SessionBooks<V> {
        SessionBooks {
            latest: None,
            before: None,
            held: Vec::new(heap),
        }
    }

    // Puts an item by for the next book's shelf.
    pub(crate) fn hold(&mut self, item: Item<V>) -> Result<(), Misfit>
        ensures held { OnOk result (self.new.held.items ≡ self.old.held.items ++ (item ∷ [])) }
    {
        self.held.push(item)?;
        Ok(())
    }

    // Makes a blank book in front of the latest, and answers its shelf's limit. The items held are on its shelf, as far as it has room.
    fn begin(&mut self, heap: Global, make: Make, cells: usize) -> Result<usize, AllocError>
        ensures limit { IfOk result (λ n. n ≡ limit_of cells) }
        ensures held { self.new.held.items ≡ (if is_ok result then [] else self.old.held.items) }
    {
        let shelf = shelf_of(heap, make, cells, self.held.as_slice())?;
        let limit = shelf.limit();
        self.held.clear();
        self.before = self.latest.replace(Book::new(shelf));
        Ok(limit)
    }

    // Makes a blank book.
    pub(crate) fn make(
        &mut self,
        heap: Global,
        out: &mut Output,
        make: Make,
        cells: usize,
    ) -> Result<(), Fault> {
        let limit = self.begin(heap, make, cells)?;
        writeln!(out, "book {make} {limit}")?;
        Ok(())
    }
}

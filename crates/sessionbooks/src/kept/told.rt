// The calls that ask of the books.
use crate::calls::list;
use crate::kept::SessionBooks;
use answers::{Fault, Output, show_compared, show_tally};
use scripts::{Misfit, ScriptValue};
use std::alloc::Global;
use values::Bucketed;

impl<V: ScriptValue + Bucketed> SessionBooks<V> {
    // Lists the open items of the book.
    pub(crate) fn list(&self, heap: Global, out: &mut Output, room: usize) -> Result<(), Fault> {
        let book = self.latest.as_ref().ok_or(Misfit::NoBook)?;
        list(heap, out, book, room)
    }

    // Tells the counts of a name.
    pub(crate) fn tally(&self, out: &mut Output, name: u8) -> Result<(), Fault> {
        let book = self.latest.as_ref().ok_or(Misfit::NoBook)?;
        show_tally(out, book.tally(name))?;
        Ok(())
    }

    // Compares the book with the one made before it.
    pub(crate) fn compare(&self, out: &mut Output) -> Result<(), Fault> {
        let book = self.latest.as_ref().ok_or(Misfit::NoBook)?;
        let other = self.before.as_ref().ok_or(Misfit::NoOtherBook)?;
        show_compared(out, book.compare(other))?;
        Ok(())
    }
}

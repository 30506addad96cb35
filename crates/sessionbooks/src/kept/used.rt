// The calls that change the latest book.
use crate::calls::{batch, end, open, put};
use crate::kept::SessionBooks;
use answers::{Fault, Output};
use booklines::Rooms;
use records::Event;
use scripts::{Misfit, ScriptValue};
use sheets::Sheet;
use std::alloc::Global;
use values::Bucketed;

impl<V: ScriptValue + Bucketed> SessionBooks<V> {
    // Opens the book.
    pub(crate) fn open(&mut self, out: &mut Output, sheet: &Sheet<V>) -> Result<(), Fault> {
        let book = self.latest.as_mut().ok_or(Misfit::NoBook)?;
        open(out, sheet, book)
    }

    // Hands the book an event.
    pub(crate) fn put(
        &mut self,
        heap: Global,
        out: &mut Output,
        sheet: &Sheet<V>,
        rooms: Rooms,
        event: &Event<V>,
    ) -> Result<(), Fault> {
        let book = self.latest.as_mut().ok_or(Misfit::NoBook)?;
        put(heap, out, sheet, book, rooms, event)
    }

    // Hands the book a batch.
    pub(crate) fn batch(
        &mut self,
        heap: Global,
        out: &mut Output,
        sheet: &Sheet<V>,
        rooms: Rooms,
        bytes: &[u8],
    ) -> Result<(), Fault> {
        let book = self.latest.as_mut().ok_or(Misfit::NoBook)?;
        batch(heap, out, sheet, book, rooms, bytes)
    }

    // Closes the book.
    pub(crate) fn end(
        &mut self,
        heap: Global,
        out: &mut Output,
        sheet: &Sheet<V>,
        findings: usize,
    ) -> Result<(), Fault> {
        let book = self.latest.as_mut().ok_or(Misfit::NoBook)?;
        end(heap, out, sheet, book, findings)
    }
}

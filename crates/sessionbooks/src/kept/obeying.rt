// What each line about books does.
use crate::kept::SessionBooks;
use answers::{Fault, Output};
use booklines::{BookLine, Rooms};
use scripts::{Misfit, ScriptValue};
use sheets::Sheet;
use std::fs;
use values::Bucketed;

// The bytes of a file.
fn file_at(rt: &HostRuntime, path: &str) -> Result<Vec<u8>, Misfit> {
    fs::read(rt, path).map_err(|_| Misfit::NoSuchFile)
}

impl<V: ScriptValue + Bucketed> SessionBooks<V> {
    // Hands the book the batch in a file.
    fn deliver(
        &mut self,
        rt: &HostRuntime,
        out: &mut Output,
        sheet: &Sheet<V>,
        rooms: Rooms,
        path: &str,
    ) -> Result<(), Fault> {
        if self.latest.is_none() {
            return Err(Misfit::NoBook.into());
        }
        let bytes = file_at(rt, path)?;
        self.batch(rt.alloc(), out, sheet, rooms, bytes.as_slice())
    }

    // Does what a line asks for.
    pub fn obey(
        &mut self,
        rt: &HostRuntime,
        out: &mut Output,
        sheet: &Sheet<V>,
        line: BookLine<V>,
    ) -> Result<(), Fault> {
        let heap = rt.alloc();
        match line {
            BookLine::Hold { item } => Ok(self.hold(item)?),
            BookLine::Book { make, cells } => self.make(heap, out, make, cells),
            BookLine::Open => self.open(out, sheet),
            BookLine::Put { rooms, event } => self.put(heap, out, sheet, rooms, &event),
            BookLine::Batch { rooms, bytes } => {
                self.batch(heap, out, sheet, rooms, bytes.as_slice())
            }
            BookLine::Deliver { rooms, path } => {
                self.deliver(rt, out, sheet, rooms, path.as_str())
            }
            BookLine::End { findings } => self.end(heap, out, sheet, findings),
            BookLine::List { room } => self.list(heap, out, room),
            BookLine::Tally { name } => self.tally(out, name),
            BookLine::Compare => self.compare(out),
        }
    }
}

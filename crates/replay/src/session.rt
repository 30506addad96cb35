// A session over one kind of value: what a `sheet` line begins.
ghost use Rattle.replay.specs.Lines.{ShorterIfSome};

use crate::replaying::Replay;
use answers::{Fault, Output, report, show_batch, show_keyed, show_refusal, show_written};
use commands::{Command, command_of};
use scripts::{Line, Misfit, ScriptValue, ValueKind, line_of, words_of};
use sessionbooks::SessionBooks;
use sheets::{LoadError, Sheet};
use std::alloc::Global;
use std::io;
use std::io::Write;
use tables::Tables;
use values::Bucketed;

// Where the lines under one sheet stop.
#[derive(Drop)]
pub enum Stop<V: Copy> {
    // Another sheet is loaded, which stands on these tables.
    Loaded(Tables<V>),
    // Another session begins.
    Session(ValueKind),
}

#[derive(Drop)]
pub struct Session<V: Bucketed> {
    // What the script has built since the tables were last empty.
    tables: Tables<V>,
    // The books that the script has made.
    kept: SessionBooks<V>,
}

impl<V: ScriptValue + Bucketed> Session<V> {
    // Empty tables, and no book.
    pub fn new(heap: Global) -> Session<V> {
        Session {
            tables: Tables::new(heap),
            kept: SessionBooks::new(heap),
        }
    }

    // Tries the tables on a sheet. Where they are accepted, the sheet to come stands on a copy of them, since they may go on changing.
    fn load(&self, heap: Global, out: &mut Output) -> Result<Option<Stop<V>>, Fault> {
        let mut trial = Sheet::new(heap);
        match self.tables.load(heap, &mut trial) {
            Ok(()) => {
                let copy = self.tables.copy(heap)?;
                writeln!(out, "loaded")?;
                Ok(Some(Stop::Loaded(copy)))
            }
            Err(LoadError::Refused(refusal)) => {
                show_refusal(out, refusal)?;
                Ok(None)
            }
            Err(LoadError::Memory) => Err(Fault::Misfit(Misfit::NoMemory)),
        }
    }

    // Does what the words of a command ask for.
    fn command(
        &mut self,
        rt: &HostRuntime,
        out: &mut Output,
        sheet: &Sheet<V>,
        words: &[&str],
    ) -> Result<Option<Stop<V>>, Fault> {
        let heap = rt.alloc();
        match command_of::<V>(heap, words)? {
            Command::Table(line) => self.tables.change(heap, line)?,
            Command::Load => return self.load(heap, out),
            Command::Keyed => show_keyed(out, sheet.keyed())?,
            Command::OnBook(line) => self.kept.obey(rt, out, sheet, line)?,
            Command::Read { batch } => show_batch::<V>(out, batch.as_slice())?,
            Command::Write { room, event } => show_written(heap, out, room, &event)?,
        }
        Ok(None)
    }

    // Does what one line asks for.
    fn obey(
        &mut self,
        rt: &HostRuntime,
        out: &mut Output,
        sheet: &Sheet<V>,
        line: &[u8],
    ) -> Result<Option<Stop<V>>, Fault> {
        let words = words_of(rt.alloc(), line)?;
        match line_of(words.as_slice())? {
            Line::Remark => Ok(None),
            Line::Sheet(kind) => Ok(Some(Stop::Session(kind))),
            Line::Command => self.command(rt, out, sheet, words.as_slice()),
        }
    }

    // Obeys lines under a sheet, until another is loaded or another session begins, or else to the script's end.
    pub fn run(&mut self, run: &mut Replay, sheet: &Sheet<V>) -> io::Result<Option<Stop<V>>>
        ensures { ShorterIfSome result run.old.script.left.now run.new.script.left.now }
    {
        while let Some(line) = run.script.next_line() {
            match self.obey(run.rt, &mut run.out, sheet, line) {
                Ok(None) => {}
                Ok(Some(stop)) => return Ok(Some(stop)),
                Err(fault) => report(&mut run.out, run.script.number(), fault)?,
            }
        }
        Ok(None)
    }
}

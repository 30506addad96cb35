// A script as sessions, one behind the other.
ghost use Rattle.replay.specs.Lines.{ShorterIfSome};

use crate::replaying::Replay;
use crate::session::{Session, Stop};
use answers::report;
use scripts::{Line, Misfit, ScriptValue, ValueKind, line_of, words_of};
use sheets::{LoadError, Sheet};
use std::alloc::{AllocError, Global};
use std::io;
use std::io::Write;
use tables::Tables;
use values::{Bucketed, Number, Reference};

// The session that a line begins, if it begins one. No command is obeyed before that.
fn opening(heap: Global, line: &[u8]) -> Result<Option<ValueKind>, Misfit> {
    let words = words_of(heap, line)?;
    match line_of(words.as_slice())? {
        Line::Remark => Ok(None),
        Line::Sheet(kind) => Ok(Some(kind)),
        Line::Command => Err(Misfit::NoSheet),
    }
}

// Goes to the first line that begins a session.
fn first_session(run: &mut Replay) -> io::Result<Option<ValueKind>> {
    let heap = run.rt.alloc();
    while let Some(line) = run.script.next_line() {
        match opening(heap, line) {
            Ok(None) => {}
            Ok(Some(kind)) => return Ok(Some(kind)),
            Err(misfit) => report(&mut run.out, run.script.number(), misfit.into())?,
        }
    }
    Ok(None)
}

// Loads tables once more that were accepted, or that are empty and leave the sheet empty.
fn stand<'a, V: Copy>(
    heap: Global,
    tables: &'a Tables<V>,
    sheet: &mut Sheet<'a, V>,
) -> Result<(), AllocError> {
    match tables.load(heap, sheet) {
        Err(LoadError::Memory) => Err(AllocError),
        _ => Ok(()),
    }
}

// Runs a session under the sheet that stands on some tables.
fn run_on<V: ScriptValue + Bucketed>(
    run: &mut Replay,
    session: &mut Session<V>,
    tables: &Tables<V>,
) -> io::Result<Option<Stop<V>>>
    ensures { ShorterIfSome result run.old.script.left.now run.new.script.left.now }
{
    let heap = run.rt.alloc();
    let mut sheet = Sheet::new(heap);
    stand(heap, tables, &mut sheet)?;
    session.run(run, &sheet)
}

// Runs a session over one kind of value, and answers which one comes behind it. The sheet stands on a copy of the session's tables, which is kept unchanged until another is loaded.
fn session<V: ScriptValue + Bucketed>(run: &mut Replay) -> io::Result<Option<ValueKind>>
    ensures { ShorterIfSome result run.old.script.left.now run.new.script.left.now }
{
    let heap = run.rt.alloc();
    let mut session = Session::<V>::new(heap);
    let mut standing = Tables::new(heap);
    while let Some(stop) = run_on(run, &mut session, &standing)? {
        match stop {
            Stop::Loaded(tables) => standing = tables,
            Stop::Session(kind) => return Ok(Some(kind)),
        }
    }
    Ok(None)
}

// Runs a session, and answers which one comes behind it.
fn session_of(run: &mut Replay, kind: ValueKind) -> io::Result<Option<ValueKind>>
    ensures { ShorterIfSome result run.old.script.left.now run.new.script.left.now }
{
    writeln!(run.out, "sheet {kind}")?;
    match kind {
        ValueKind::Numbers => session::<Number>(run),
        ValueKind::References => session::<Reference>(run),
    }
}

// Runs a script to its end.
pub fn replay(run: &mut Replay) -> io::Result<()> {
    let mut next = first_session(run)?;
    while let Some(kind) = next {
        next = session_of(run, kind)?;
    }
    Ok(())
}

// What is read of a batch, and what is written of an event.
ghost use Rattle.std.specs.Prelude.{◌≡◌};
ghost use Rattle.answers.specs.Shown.{keyed_text};

use crate::fault::Fault;
use crate::front::front;
use crate::output::Output;
use crate::refused::show_refusal;
use records::{Event, Reader, write};
use scripts::{Hex, ScriptValue};
use std::alloc::Global;
use std::io;
use std::io::Write;

// Whether a sheet is keyed, in a word.
fn keyed_word(keyed: bool) -> &'static str
    ensures { result.now ≡ keyed_text keyed }
{
    if keyed { "yes" } else { "no" }
}

// Says whether a sheet is keyed.
pub fn show_keyed(out: &mut Output, keyed: bool) -> io::Result<()> {
    let answer = keyed_word(keyed);
    writeln!(out, "{answer}")
}

// Reads a batch to its end or its first refusal.
pub fn show_batch<V: ScriptValue>(out: &mut Output, batch: &[u8]) -> io::Result<()> {
    let mut reader = Reader::new(batch);
    loop {
        match reader.next::<V>() {
            Ok(Some(event)) => writeln!(out, "  event {event}")?,
            Ok(None) => return writeln!(out, "end of batch"),
            Err(refusal) => return show_refusal(out, refusal),
        }
    }
}

// Writes a record into a new buffer of that many bytes.
pub fn show_written<V: ScriptValue>(
    heap: Global,
    out: &mut Output,
    room: usize,
    event: &Event<V>,
) -> Result<(), Fault> {
    let mut buffer = vec![in heap; 0u8; room]?;
    match write(event, buffer.as_mut_slice()) {
        Ok(n) => {
            let bytes = Hex {
                bytes: front(buffer.as_slice(), n),
            };
            writeln!(out, "written {bytes}")?;
        }
        Err(refusal) => show_refusal(out, refusal)?,
    }
    Ok(())
}

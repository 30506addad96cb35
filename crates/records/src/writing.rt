// Writing an event into a buffer.
ghost use Rattle.std.specs.Prelude.{◌≡◌, nat_lt};
ghost use Rattle.refusals.specs.Telling.{told};
ghost use Rattle.records.specs.Record.{event_bytes, in_word};
ghost use Rattle.records.specs.RoundTrip.{RoundTrip};
ghost use Rattle.records.specs.Writer.{writes};

use crate::encode::{event_size, fill};
use crate::event::Event;
use refusals::Refusal;
use values::Value;

// Whether a buffer has fewer bytes than are needed.
fn falls_short(room: usize, needed: u128) -> bool
    ensures { result ≡ nat_lt room needed }
{
    (room as u128) < needed
}

// A number of bytes as it is told: the largest stands for every larger one.
fn in_word(n: u128) -> usize
    ensures { result ≡ in_word n }
{
    usize::try_from(n).unwrap_or(usize::MAX)
}

// Fills the front of the buffer with the event's record, and answers how many bytes it has; a refusal leaves the buffer as it was.
fn write_front<V: Value>(event: &Event<V>, buffer: &mut [u8]) -> Result<usize, Refusal>
    ensures answer { told result ≡ (writes (event_bytes V.Value.written event.now) buffer.old).answer }
    ensures buffer { buffer.new ≡ (writes (event_bytes V.Value.written event.now) buffer.old).buffer }
{
    let Some(needed) = event_size(event) else {
        return Err(Refusal::Malformed { place: 0 });
    };
    if falls_short(buffer.len(), needed) {
        return Err(Refusal::BufferTooShort {
            needed: in_word(needed),
        });
    }
    Ok(fill(event, buffer))
}

// Fills the front of the buffer with the event's record, and answers how many bytes it has; a refusal leaves the buffer as it was.
// The law: what is written reads back, whatever stands before and behind it, and what was read is written in the very bytes read.
pub fn write<V: Value>(event: &Event<V>, buffer: &mut [u8]) -> Result<usize, Refusal>
    ensures answer { told result ≡ (writes (event_bytes V.Value.written event.now) buffer.old).answer }
    ensures buffer { buffer.new ≡ (writes (event_bytes V.Value.written event.now) buffer.old).buffer }
    ensures law { RoundTrip V.Value.written V.Value.reads }
{
    write_front(event, buffer)
}

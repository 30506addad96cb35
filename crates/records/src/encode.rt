// Writing an event as a record.
ghost use Rattle.std.specs.Prelude.{◌≡◌, ◌+◌, ◌≤◌, true, ◌++◌, length, take, drop, is_some};
ghost use Rattle.std.specs.Option.{option_map};
ghost use Rattle.values.specs.Form.{bytes_in, filled};
ghost use Rattle.records.specs.Record.{event_bytes, field_bytes};

use crate::event::Event;
use crate::fields::kind_fits;
use values::Value;

// How many bytes a field takes, or none where it has no bytes.
fn field_size<V: Value>(field: &Option<V>) -> Option<usize>
    ensures { result ≡ option_map length (field_bytes V.Value.written field.now) }
{
    match field {
        Some(value) => value.size(),
        None => Some(0),
    }
}

// How many bytes an event takes, or none where it has no bytes.
pub fn event_size<V: Value>(event: &Event<V>) -> Option<u128>
    ensures { result ≡ option_map length (event_bytes V.Value.written event.now) }
{
    if !kind_fits(event.kind) {
        return None;
    }
    let mut n: u128 = 2;
    for field in &event.fields() {
        let size = field_size(field)?;
        n += size as u128;
    }
    Some(n)
}

// Writes a field at a place, and answers the place after it.
fn put_field<V: Value>(field: &Option<V>, buffer: &mut [u8], at: usize) -> usize
    requires field_value { is_some (field_bytes V.Value.written field.now) ≡ true }
    requires field_in_bounds { at + length (bytes_in (field_bytes V.Value.written field.now)) ≤ length buffer.old }
    ensures end { result ≡ at + length (bytes_in (field_bytes V.Value.written field.now)) }
    ensures front { take result buffer.new ≡ take at buffer.old ++ bytes_in (field_bytes V.Value.written field.now) }
    ensures rest { drop result buffer.new ≡ drop result buffer.old }
{
    match field {
        Some(value) => at + value.write(&mut buffer[at..]),
        None => at,
    }
}

// Fills the front of a buffer with an event's bytes, and answers how many.
pub fn fill<V: Value>(event: &Event<V>, buffer: &mut [u8]) -> usize
    requires event_value { is_some (event_bytes V.Value.written event.now) ≡ true }
    requires event_in_bounds { length (bytes_in (event_bytes V.Value.written event.now)) ≤ length buffer.old }
    ensures count { result ≡ length (bytes_in (event_bytes V.Value.written event.now)) }
    ensures bytes { buffer.new ≡ filled (bytes_in (event_bytes V.Value.written event.now)) buffer.old }
{
    buffer[0] = event.kind;
    buffer[1] = event.map();
    let mut at = 2;
    for field in &event.fields() {
        at = put_field(field, buffer, at);
    }
    at
}

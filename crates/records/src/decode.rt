// Reading the record at a place of a batch.
ghost use Rattle.std.specs.Prelude.{◌≡◌, ◌+◌, ◌/◌, ◌%◌, ◌<◌, ◌≤◌, length, IfOk, ◌==◌};
ghost use Rattle.records.specs.Record.{event, field_at, fields_at, record_at};
ghost use Rattle.records.specs.RoundTrip.{Covers};

use crate::event::Event;
use crate::fields::kind_fits;
use values::Value;

// Whether the first of the fields that a map tells of is absent.
fn is_absent(map: u8) -> bool
    ensures { result ≡ (map % 2 == 0) }
{
    map % 2 == 0
}

// The map of the fields behind the first.
fn rest_of(map: u8) -> u8
    ensures { result ≡ map / 2 }
{
    map / 2
}

// The first of the fields that a map tells of, and the place after it, or the place that is refused.
fn read_field<V: Value>(bytes: &[u8], at: usize, map: u8) -> Result<(Option<V>, usize), usize>
    requires { at ≤ length bytes.now }
    ensures value { result ≡ field_at V.Value.reads map bytes.now at }
    ensures within { IfOk result (λ x. x.1 ≤ length bytes.now) }
{
    if is_absent(map) {
        return Ok((None, at));
    }
    match V::read(&bytes[at..]) {
        Ok((value, size)) => Ok((Some(value), at + size)),
        Err(place) => Err(at.saturating_add(place)),
    }
}

// The event of a kind and the fields from a place on, with the place after them, or the place that is refused.
fn read_fields<V: Value>(
    kind: u8,
    map: u8,
    bytes: &[u8],
    start: usize,
) -> Result<(Event<V>, usize), usize>
    requires { start ≤ length bytes.now }
    ensures { result ≡ event V.Value.reads kind (fields_at V.Value.reads 8 map bytes.now start) }
{
    let mut event = Event::bare(kind);
    let mut at = start;
    let mut left = map;
    for number in 1..=8 {
        let (value, end) = read_field(bytes, at, left)?;
        event.set_field(number, value);
        at = end;
        left = rest_of(left);
    }
    Ok((event, at))
}

// The event at a place, with the place after it, or the place that is refused.
pub fn read_record<V: Value>(bytes: &[u8], at: usize) -> Result<(Event<V>, usize), usize>
    requires { at < length bytes.now }
    ensures value { result ≡ record_at V.Value.reads bytes.now at }
    ensures covers { IfOk result (λ x. Covers V.Value.written bytes.now at x.0 x.1) }
{
    let kind = bytes[at];
    if !kind_fits(kind) {
        return Err(at);
    }
    if bytes.len() - at < 2 {
        return Err(at + 1);
    }
    read_fields(kind, bytes[at + 1], bytes, at + 2)
}

// Words as events: the kind, then each field as its number, `=` and its value.
ghost use Rattle.std.specs.Prelude.{◌≡◌, ◌-◌, is_ok, IfOk, if◌then◌else◌, Some, Ok, slice_set};
ghost use Rattle.records.specs.Fields.{fields_of};
ghost use Rattle.scripts.specs.Decimals.{byte_in, number_in};
ghost use Rattle.scripts.specs.Postings.{settable};

use crate::decimal::byte;
use crate::misfit::Misfit;
use crate::value::ScriptValue;
use records::Event;
use std::alloc::Global;

// Sets a field that the event does not have yet.
fn set_once<V: Copy>(event: &mut Event<V>, number: u8, value: V) -> Result<(), Misfit>
    ensures answer { result ≡ settable event.old number }
    ensures kind { event.new.kind ≡ event.old.kind }
    ensures fields { fields_of event.new ≡ (if is_ok result then slice_set (fields_of event.old) (number - 1) (Some value) else fields_of event.old) }
{
    if event.field(number).is_some() {
        return Err(Misfit::FieldGivenTwice);
    }
    if event.set_field(number, Some(value)) {
        Ok(())
    } else {
        Err(Misfit::NoSuchField)
    }
}

// Sets the field that a word gives.
fn give<V: ScriptValue>(heap: Global, event: &mut Event<V>, word: &str) -> Result<(), Misfit>
    ensures { event.new.kind ≡ event.old.kind }
{
    let (number, value) = word.split_once('=').ok_or(Misfit::NotAField)?;
    let number = byte(number)?;
    set_once(event, number, V::of_word(heap, value)?)
}

// The event of a kind and some fields.
pub fn event_of<V: ScriptValue>(
    heap: Global,
    kind: &str,
    fields: &[&str],
) -> Result<Event<V>, Misfit>
    ensures { IfOk result (λ e. byte_in (number_in kind.now) ≡ Ok e.kind) }
{
    let mut event = Event::bare(byte(kind)?);
    for word in fields {
        give(heap, &mut event, word)?;
    }
    Ok(event)
}

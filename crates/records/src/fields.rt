// The fields of an event by their number, and its bit map.
ghost use Rattle.std.specs.Prelude.{◌≡◌, ◌-◌, ◌≤◌, [], map, if◌then◌else◌, None, slice_index_or, slice_set};
ghost use Rattle.records.specs.Fields.{bit_of, event_of, field_of, fields_of, has_field, map_of};
ghost use Rattle.records.specs.Record.{kind_fits};

use crate::event::{Event, LARGEST_KIND};

// Whether a kind may stand in a record.
pub(crate) fn kind_fits(kind: u8) -> bool
    ensures { result ≡ kind_fits kind }
{
    kind <= LARGEST_KIND
}

// The field's bit.
fn bit<V>(field: &Option<V>) -> u8
    ensures value { result ≡ bit_of field.now }
    ensures small { result ≤ 1 }
{
    u8::from(field.is_some())
}

impl<V: Copy> Event<V> {
    // An event without fields.
    pub fn bare(kind: u8) -> Self
        ensures { result ≡ event_of kind [] }
    {
        Event {
            kind,
            field1: None,
            field2: None,
            field3: None,
            field4: None,
            field5: None,
            field6: None,
            field7: None,
            field8: None,
        }
    }

    // The fields, from the first to the eighth.
    pub(crate) fn fields(&self) -> [&Option<V>; 8]
        ensures { map (λ f. f.now) result ≡ fields_of self.now }
    {
        [
            &self.field1,
            &self.field2,
            &self.field3,
            &self.field4,
            &self.field5,
            &self.field6,
            &self.field7,
            &self.field8,
        ]
    }

    // The field of a number from 1 to 8; none at any other.
    pub fn field(&self, number: u8) -> Option<V>
        ensures { result ≡ field_of self.now number }
    {
        match number {
            1 => self.field1,
            2 => self.field2,
            3 => self.field3,
            4 => self.field4,
            5 => self.field5,
            6 => self.field6,
            7 => self.field7,
            8 => self.field8,
            _ => None,
        }
    }

    // Sets the field of a number from 1 to 8, and answers whether there is one of that number.
    pub fn set_field(&mut self, number: u8, field: Option<V>) -> bool
        ensures answer { result ≡ has_field number }
        ensures kind { self.new.kind ≡ self.old.kind }
        ensures fields { fields_of self.new ≡ (if result then slice_set (fields_of self.old) (number - 1) field else fields_of self.old) }
    {
        match number {
            1 => self.field1 = field,
            2 => self.field2 = field,
            3 => self.field3 = field,
            4 => self.field4 = field,
            5 => self.field5 = field,
            6 => self.field6 = field,
            7 => self.field7 = field,
            8 => self.field8 = field,
            _ => return false,
        }
        true
    }

    // The bit map: 1 for the first field up to 128 for the eighth.
    pub fn map(&self) -> u8
        ensures { result ≡ map_of (fields_of self.now) }
    {
        bit(&self.field1)
            + 2 * bit(&self.field2)
            + 4 * bit(&self.field3)
            + 8 * bit(&self.field4)
            + 16 * bit(&self.field5)
            + 32 * bit(&self.field6)
            + 64 * bit(&self.field7)
            + 128 * bit(&self.field8)
    }
}

// What the patterns of a row stand for.
ghost use Rattle.std.specs.Prelude.{◌≡◌, ◌&&◌};
ghost use Rattle.items.specs.Items.{agrees, named};
ghost use Rattle.rules.specs.Kinds.{value_kind};
ghost use Rattle.rules.specs.Step.{all_agree, argument_value, is_of, item_of, place_value, values_in};
ghost use Rattle.sheets.specs.Tables.{argument_list, first_argument};
ghost use Rattle.std.specs.Option.{unwrap_or};
ghost use Rattle.firing.specs.At.{event_in, first_value, sheet_in};

use crate::at::SheetEvent;
use crate::cells::own_value;
use items::Item;
use sheets::{Argument, Arguments, Pattern, Row};
use values::Value;

// Whether a value is the one wanted, if one is.
fn agrees_with<V: Value>(wanted: Option<V>, value: &V) -> bool
    ensures { result ≡ agrees V.Ord.cmp wanted value.now }
{
    wanted.is_none_or(|other| *value == other)
}

impl<'a, 'b, V: Value> SheetEvent<'a, 'b, V> {
    // An argument's value; none for any.
    pub fn argument_value(&self, item: &Item<V>, row: &Row, argument: Argument) -> Option<V>
        ensures { result ≡ argument_value (value_kind V.Value) (sheet_in self.now) (event_in self.now) item.now row.now argument }
    {
        match argument {
            Argument::Constant(number) => Some(self.constant(number)),
            Argument::Own(number) => Some(own_value(item, number)),
            Argument::Slot(slot) => Some(self.slot_value(row, slot)),
            Argument::Any => None,
        }
    }

    // The value of the first argument, where there is one and it is not any.
    pub fn first_value(&self, item: &Item<V>, row: &Row, arguments: Arguments) -> Option<V>
        ensures { result ≡ first_value (argument_value (value_kind V.Value) (sheet_in self.now) (event_in self.now) item.now row.now) (first_argument arguments) }
    {
        let first = arguments.first()?;
        self.argument_value(item, row, first)
    }

    // Whether a value is that of the argument.
    fn argument_agrees(&self, item: &Item<V>, row: &Row, argument: Argument, value: &V) -> bool
        ensures { result ≡ agrees V.Ord.cmp (argument_value (value_kind V.Value) (sheet_in self.now) (event_in self.now) item.now row.now argument) value.now }
    {
        agrees_with(self.argument_value(item, row, argument), value)
    }

    // Whether another item is one of the pattern.
    pub fn is_of(&self, item: &Item<V>, row: &Row, pattern: Pattern, other: &Item<V>) -> bool
        ensures { result ≡ is_of (value_kind V.Value) (sheet_in self.now) (event_in self.now) item.now row.now pattern other.now }
    {
        if other.name != pattern.state {
            return false;
        }
        match pattern.arguments {
            Arguments::Nothing => true,
            Arguments::One(a) => self.argument_agrees(item, row, a, &other.first),
            Arguments::Two(a, b) => {
                self.argument_agrees(item, row, a, &other.first)
                    && self.argument_agrees(item, row, b, &other.second)
            }
            Arguments::Three(a, b, c) => {
                self.argument_agrees(item, row, a, &other.first)
                    && self.argument_agrees(item, row, b, &other.second)
                    && self.argument_agrees(item, row, c, &other.third)
            }
        }
    }

    // The value that an ask or a strike has for an argument.
    fn place_value(&self, item: &Item<V>, row: &Row, argument: Argument) -> V
        ensures { result ≡ unwrap_or (argument_value (value_kind V.Value) (sheet_in self.now) (event_in self.now) item.now row.now argument) V.Value.blank }
    {
        self.argument_value(item, row, argument)
            .unwrap_or(V::filler())
    }

    // The item that an ask or a strike names.
    pub fn item_of(&self, item: &Item<V>, row: &Row, pattern: Pattern) -> Item<V>
        ensures { result ≡ item_of (value_kind V.Value) (sheet_in self.now) (event_in self.now) item.now row.now pattern }
    {
        let none = V::filler();
        let (first, second, third) = match pattern.arguments {
            Arguments::Nothing => (none, none, none),
            Arguments::One(a) => (self.place_value(item, row, a), none, none),
            Arguments::Two(a, b) => (
                self.place_value(item, row, a),
                self.place_value(item, row, b),
                none,
            ),
            Arguments::Three(a, b, c) => (
                self.place_value(item, row, a),
                self.place_value(item, row, b),
                self.place_value(item, row, c),
            ),
        };
        Item {
            name: pattern.state,
            first,
            second,
            third,
        }
    }
}

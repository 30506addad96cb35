// Events in words: the kind, then each field that there is as its number, `=` and its value.
ghost use Rattle.records.specs.Texts.{event_text, given_text};

use crate::event::Event;
use std::fmt;

// A field by its number, to be shown where it is there.
#[derive(Drop)]
struct Given<V>(u8, Option<V>);

impl<V: Copy + fmt::Display> fmt::Display for Given<V> {
    ghost output = { λ g. given_text V.Display.output g.0 g.1 };

    fn fmt<W: fmt::Write>(&self, f: &mut fmt::Formatter<W>) -> fmt::Result {
        let number = self.0;
        match self.1 {
            Some(value) => write!(f, " {number}={value}"),
            None => Ok(()),
        }
    }
}

impl<V: Copy + fmt::Display> fmt::Display for Event<V> {
    ghost output = { event_text V.Display.output };

    fn fmt<W: fmt::Write>(&self, f: &mut fmt::Formatter<W>) -> fmt::Result {
        let kind = self.kind;
        let one = Given(1, self.field1);
        let two = Given(2, self.field2);
        let three = Given(3, self.field3);
        let four = Given(4, self.field4);
        let five = Given(5, self.field5);
        let six = Given(6, self.field6);
        let seven = Given(7, self.field7);
        let eight = Given(8, self.field8);
        write!(f, "{kind}{one}{two}{three}{four}{five}{six}{seven}{eight}")
    }
}

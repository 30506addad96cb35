// Items in words: the name, then the three values.
ghost use Rattle.items.specs.Texts.{item_text};

use crate::item::Item;
use std::fmt;
use values::Value;

impl<V: Value + fmt::Display> fmt::Display for Item<V> {
    ghost output = { item_text V.Display.output };

    fn fmt<W: fmt::Write>(&self, f: &mut fmt::Formatter<W>) -> fmt::Result {
        let Item {
            name,
            first,
            second,
            third,
        } = self;
        write!(f, "{name} {first} {second} {third}")
    }
}

// Moves and findings in words.
ghost use Rattle.std.specs.Prelude.{Some};
ghost use Rattle.rules.specs.Texts.{cause_text, finding_text, move_text};

use crate::finding::Finding;
use crate::moves::{Cause, Move};
use std::fmt;
use values::Value;

impl fmt::Display for Cause {
    ghost output = { λ cause. Some (cause_text cause) };

    fn fmt<W: fmt::Write>(&self, f: &mut fmt::Formatter<W>) -> fmt::Result {
        match self {
            Cause::Fired => f.write_str("fired"),
            Cause::Lapsed => f.write_str("lapsed"),
            Cause::Asked => f.write_str("asked"),
            Cause::Struck => f.write_str("struck"),
        }
    }
}

// The cause, then the item.
impl<V: Value + fmt::Display> fmt::Display for Move<V> {
    ghost output = { move_text V.Display.output };

    fn fmt<W: fmt::Write>(&self, f: &mut fmt::Formatter<W>) -> fmt::Result {
        let Move { cause, item } = self;
        write!(f, "{cause} {item}")
    }
}

// The event's number, the kind of finding, the row and the item.
impl<V: Value + fmt::Display> fmt::Display for Finding<V> {
    ghost output = { finding_text V.Display.output };

    fn fmt<W: fmt::Write>(&self, f: &mut fmt::Formatter<W>) -> fmt::Result {
        let Finding { event, fault, item } = self;
        let kind = fault.kind();
        let row = fault.row();
        write!(f, "{event} {kind} {row} {item}")
    }
}

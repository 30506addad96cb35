// The kinds of value, and the reasons why a line does not fit, in words.
ghost use Rattle.std.specs.Prelude.{Some};
ghost use Rattle.scripts.specs.Lines.{kind_name};

use crate::line::ValueKind;
use crate::misfit::Misfit;
use std::fmt;

impl fmt::Display for ValueKind {
    ghost output = { λ kind. Some (kind_name kind) };

    fn fmt<W: fmt::Write>(&self, f: &mut fmt::Formatter<W>) -> fmt::Result {
        match self {
            ValueKind::Numbers => f.write_str("numbers"),
            ValueKind::References => f.write_str("references"),
        }
    }
}

fn reason(misfit: Misfit) -> &'static str {
    match misfit {
        Misfit::NotText => "not text",
        Misfit::NotACommand => "not a command",
        Misfit::TooManyWords => "too many words",
        Misfit::MissingWord => "a word is missing",
        Misfit::NotAKindOfValue => "not a kind of value",
        Misfit::NoSheet => "no sheet yet",
        Misfit::NotANumber => "not a number",
        Misfit::NumberTooLarge => "number too large",
        Misfit::TooMuchRoom => "too much room",
        Misfit::NotHexadecimal => "not hexadecimal",
        Misfit::NotAReference => "not a reference",
        Misfit::NotAField => "not a field",
        Misfit::NoSuchField => "no such field",
        Misfit::FieldGivenTwice => "field given twice",
        Misfit::NotAMark => "not a mark",
        Misfit::NotACell => "not a cell",
        Misfit::NotAnArgument => "not an argument",
        Misfit::TooManyArguments => "too many arguments",
        Misfit::NoSuchKind => "no such kind",
        Misfit::NoRow => "no row yet",
        Misfit::RowFull => "no room in the row",
        Misfit::NoBook => "no book yet",
        Misfit::NoOtherBook => "no book to compare with",
        Misfit::NotAShelf => "not a shelf",
        Misfit::NoSuchFile => "file cannot be read",
        Misfit::NoMemory => "no memory",
    }
}

impl fmt::Display for Misfit {
    fn fmt<W: fmt::Write>(&self, f: &mut fmt::Formatter<W>) -> fmt::Result {
        f.write_str(reason(*self))
    }
}

// Why a line of a script does not fit, or could not be handled.
ghost use Rattle.std.specs.Prelude.{◌≡◌};
ghost use Rattle.scripts.specs.declared.misfit.Misfit.TheVariants.{NoMemory};

use std::alloc::{AllocError, AllocFailed};

#[derive(Clone, Copy)]
pub enum Misfit {
    // The line's bytes are no text in UTF-8.
    NotText,
    // The first word names no command.
    NotACommand,
    // The command takes fewer words.
    TooManyWords,
    // The command takes more words.
    MissingWord,
    // The word after `sheet` names no kind of value.
    NotAKindOfValue,
    // A command that wants a session stands before any `sheet`.
    NoSheet,
    // A number is decimal digits alone.
    NotANumber,
    // The number's place cannot hold it.
    NumberTooLarge,
    // A buffer has at most 1,000,000 places.
    TooMuchRoom,
    // Bytes are two hexadecimal digits each.
    NotHexadecimal,
    // A reference is 1 to 16 bytes, none of them zero.
    NotAReference,
    // A field is its number, `=` and its value.
    NotAField,
    // Fields are numbered from 1 to 8.
    NoSuchField,
    // An event has one value in a field.
    FieldGivenTwice,
    // A state's marks are `init`, `always`, `hot`, `step` and `next`.
    NotAMark,
    // A cell wants `any`, `constant`, `own`, `bind` or `slot`.
    NotACell,
    // An argument is `any`, or `c`, `p` or `s` with a number.
    NotAnArgument,
    // A state has at most 3 parameters.
    TooManyArguments,
    // Event kinds are numbered from 0 to 63.
    NoSuchKind,
    // A line about a row stands before any `row`.
    NoRow,
    // A row has at most 4 cells, 2 conditions and 4 entries.
    RowFull,
    // A call of a book stands before any `book`.
    NoBook,
    // `compare` stands before a second `book`.
    NoOtherBook,
    // A shelf is `sorted` or `indexed`.
    NotAShelf,
    // The file is not there, or cannot be read.
    NoSuchFile,
    // There was no memory to handle the line.
    NoMemory,
}

impl From<AllocError> for Misfit {
    ghost from_gives = { λ _ r. r ≡ NoMemory };

    fn from(_e: AllocError) -> Misfit {
        Misfit::NoMemory
    }
}

impl<T: Drop> From<AllocFailed<T>> for Misfit {
    ghost from_gives = { λ _ r. r ≡ NoMemory };

    fn from(_e: AllocFailed<T>) -> Misfit {
        Misfit::NoMemory
    }
}

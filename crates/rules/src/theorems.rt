// Functions that carry theorems in their contracts.
ghost use Rattle.rules.specs.Book.{BookModel};
ghost use Rattle.rules.specs.Cases.{Cases};
ghost use Rattle.rules.specs.Kinds.{value_kind};
ghost use Rattle.rules.specs.Law.{Law};

use values::Value;

// A type of books, each seen as a book with its shelf's set and limit.
pub trait Viewed {
    // The kind of value that its items hold.
    type Of: Value;

    ghost view: { Self → BookModel Self.Of };
}

// Carries the law: of every kind of value, and of the books of any two types.
pub fn law_holds<S: Viewed, T: Viewed<Of = S::Of>>() -> u8
    ensures { Law (value_kind S.Of.Value) S.Viewed.view T.Viewed.view }
{
    0
}

// Carries the worked cases.
pub fn cases_hold() -> u8
    ensures { Cases }
{
    0
}

// The makes of shelf, and their words.
ghost use Rattle.std.specs.Prelude.{◌≡◌, Some};
ghost use Rattle.booklines.specs.Makes.{make_in, make_name};

use scripts::Misfit;
use std::fmt;

// The makes of shelf.
#[derive(Clone, Copy)]
pub enum Make {
    Sorted,
    Indexed,
}

impl TryFrom<&str> for Make {
    type Error = Misfit;

    // The make that a word names.
    fn try_from(word: &str) -> Result<Make, Misfit>
        ensures { result ≡ make_in word.now }
    {
        match word {
            "sorted" => Ok(Make::Sorted),
            "indexed" => Ok(Make::Indexed),
            _ => Err(Misfit::NotAShelf),
        }
    }
}

impl fmt::Display for Make {
    ghost output = { λ make. Some (make_name make) };

    fn fmt<W: fmt::Write>(&self, f: &mut fmt::Formatter<W>) -> fmt::Result {
        match self {
            Make::Sorted => f.write_str("sorted"),
            Make::Indexed => f.write_str("indexed"),
        }
    }
}

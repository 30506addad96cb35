// The first of a pattern's arguments.
ghost use Rattle.std.specs.Prelude.{◌≡◌};
ghost use Rattle.sheets.specs.Tables.{first_argument};

use crate::tables::{Argument, Arguments};

impl Arguments {
    // The first argument, if there is one.
    pub fn first(self) -> Option<Argument>
        ensures { result ≡ first_argument self }
    {
        match self {
            Arguments::Nothing => None,
            Arguments::One(first) | Arguments::Two(first, _) | Arguments::Three(first, _, _) =>
                Some(first),
        }
    }
}

// Why a load fails.
ghost use Rattle.std.specs.Prelude.{◌≡◌};
ghost use Rattle.sheets.specs.declared.fault.LoadError.TheVariants.{Refused, Memory};

use refusals::Refusal;
use std::alloc::AllocError;

#[derive(Clone, Copy)]
pub enum LoadError {
    // The tables break a rule.
    Refused(Refusal),
    // There is no memory for a copy of the tables.
    Memory,
}

impl From<Refusal> for LoadError {
    ghost from_gives = { λ refusal r. r ≡ Refused refusal };

    fn from(refusal: Refusal) -> LoadError {
        LoadError::Refused(refusal)
    }
}

impl From<AllocError> for LoadError {
    ghost from_gives = { λ _ r. r ≡ Memory };

    fn from(_e: AllocError) -> LoadError {
        LoadError::Memory
    }
}

// Why a line is not obeyed.
ghost use Rattle.std.specs.Prelude.{◌≡◌};
ghost use Rattle.scripts.specs.declared.misfit.Misfit.TheVariants.{NoMemory};
ghost use Rattle.answers.specs.declared.fault.Fault.TheVariants.{Misfit, Io};

use scripts::Misfit;
use std::alloc::AllocError;
use std::io;

#[derive(Drop)]
pub enum Fault {
    // The line does not fit: the script goes on behind it.
    Misfit(Misfit),
    // Input or output failed: the program ends.
    Io(io::Error),
}

impl From<Misfit> for Fault {
    ghost from_gives = { λ e r. r ≡ Misfit e };

    fn from(misfit: Misfit) -> Fault {
        Fault::Misfit(misfit)
    }
}

impl From<AllocError> for Fault {
    ghost from_gives = { λ _ r. r ≡ Misfit NoMemory };

    fn from(_e: AllocError) -> Fault {
        Fault::Misfit(Misfit::NoMemory)
    }
}

impl From<io::Error> for Fault {
    ghost from_gives = { λ e r. r ≡ Io e };

    fn from(e: io::Error) -> Fault {
        Fault::Io(e)
    }
}

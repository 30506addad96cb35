// The phases of a book: it is made blank, takes events while it is open, and takes none once it has ended.
ghost use Rattle.std.specs.Prelude.{◌≡◌};
ghost use Rattle.rules.specs.Phases.{allowed, phase_after};

use refusals::Refusal;

#[derive(Clone, Copy)]
pub enum Phase {
    Blank,
    Open,
    Ended,
}

// The calls that want a book in one phase.
#[derive(Clone, Copy)]
pub enum PhaseCall {
    Open,
    // put and batch
    Take,
    End,
}

impl Phase {
    // A call moves the phase in place, or is refused and leaves it.
    pub fn advance(&mut self, call: PhaseCall) -> Result<(), Refusal>
        ensures answer { result ≡ allowed self.old call }
        ensures phase { self.new ≡ phase_after self.old call }
    {
        match (*self, call) {
            (Phase::Blank, PhaseCall::Open) => {
                *self = Phase::Open;
                Ok(())
            }
            (Phase::Open, PhaseCall::Take) => Ok(()),
            (Phase::Open, PhaseCall::End) => {
                *self = Phase::Ended;
                Ok(())
            }
            _ => Err(Refusal::WrongPhase),
        }
    }
}

// What a finding is about.
ghost use Rattle.std.specs.Prelude.{◌≡◌};
ghost use Rattle.rules.specs.Report.{report_of};

#[derive(Clone, Copy)]
pub enum Fault {
    // an error entry of the row of that number, which fired
    Error { row: u8 },
    // a next item lapsed
    LapsedNext,
    // a hot item was open at the close
    HotAtClose,
}

impl Fault {
    // The kind of finding, from 1 to 3.
    pub fn kind(self) -> u8
        ensures { result ≡ (report_of self).kind }
    {
        match self {
            Fault::Error { .. } => 1,
            Fault::LapsedNext => 2,
            Fault::HotAtClose => 3,
        }
    }

    // The row of an error entry; 0 in the other kinds.
    pub fn row(self) -> u8
        ensures { result ≡ (report_of self).row }
    {
        match self {
            Fault::Error { row } => row,
            Fault::LapsedNext | Fault::HotAtClose => 0,
        }
    }
}

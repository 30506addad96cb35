// A book: its phase, how many events it has accepted, the counts of each state name, and the shelf with its open items, which it owns.
ghost use Rattle.std.specs.Prelude.{◌≤◌};
ghost use Rattle.std.proofs.Props.{props};
ghost use Rattle.books.specs.Bounds.{CountsWithin};

use rules::{Phase, Tally};

#[derive(Drop)]
pub struct Book<S> {
    pub(crate) phase: Phase,
    pub(crate) accepted: u32,
    // one for each of the names 0 to 31
    pub(crate) tallies: [Tally; 32],
    pub(crate) shelf: S,
    // no more than 1,000,000 events are accepted
    ghost few: { accepted ≤ 1000000 },
    // no count is larger than these can make it
    ghost counts: { CountsWithin phase accepted tallies } by { Prim.hlevel props },
}

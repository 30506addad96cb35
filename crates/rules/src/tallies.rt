// What is counted for each state name.
ghost use Rattle.std.specs.Prelude.{◌≡◌};
ghost use Rattle.rules.specs.Tallies.{tally_sum};

// The six counts that a book keeps for a name; by default nothing is counted.
#[derive(Clone, Copy, PartialEq, Eq, Default)]
pub struct Tally {
    // init items put in
    pub started: u128,
    // asks fired by accepted events
    pub asked: u128,
    // asks whose item was there before the event, or was asked for earlier in it
    pub repeats: u128,
    // items that an accepted event took out of the set because a row fired,
    pub fired: u128,
    // or else because they lapsed,
    pub lapsed: u128,
    // or else because they were struck
    pub struck: u128,
}

impl Tally {
    // Adds what was counted; a count that would not fit stops at the largest.
    pub fn add(&mut self, more: Tally)
        ensures { self.new ≡ tally_sum self.old more }
    {
        self.started = self.started.saturating_add(more.started);
        self.asked = self.asked.saturating_add(more.asked);
        self.repeats = self.repeats.saturating_add(more.repeats);
        self.fired = self.fired.saturating_add(more.fired);
        self.lapsed = self.lapsed.saturating_add(more.lapsed);
        self.struck = self.struck.saturating_add(more.struck);
    }
}

// The seven counts that are told of a name: those that a book keeps, and how many of its items are open.
#[derive(Clone, Copy, PartialEq, Eq)]
pub struct Counts {
    pub kept: Tally,
    pub open: u128,
}

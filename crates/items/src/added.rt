// What `add` answers.
ghost use Rattle.std.specs.Prelude.{◌≡◌};
ghost use Rattle.items.specs.Items.{add_rule};

#[derive(Clone, Copy, PartialEq, Eq)]
pub enum Added {
    // The shelf held the item already.
    Held,
    // The item was put in.
    Put,
    // The item was refused, since the shelf is full.
    Full,
}

impl Added {
    // The answer of a shelf that holds as many items as `count`, where `present` tells whether the item is among them.
    pub fn rule(present: bool, count: usize, limit: usize) -> Added
        ensures { result ≡ add_rule present count limit }
    {
        if present {
            Added::Held
        } else if count < limit {
            Added::Put
        } else {
            Added::Full
        }
    }
}

// The init items of a sheet's states.
ghost use Rattle.std.specs.Prelude.{◌≡◌, ◌≤◌, [], length};
ghost use Rattle.rules.specs.Book.{inits_from, plain_item};
ghost use Rattle.rules.specs.Kinds.{value_kind};
ghost use Rattle.rules.specs.Step.{how_many};
ghost use Rattle.counting.specs.Counts.{RoomFor};
ghost use Rattle.opening.specs.Starts.{Started, counted_with, is_init, started_with};

use counting::count_name;
use items::{Item, Shelf};
use rules::Tally;
use sheets::State;
use values::Value;

// How many states are init.
pub fn count_inits(states: &[State]) -> usize
    ensures { result ≡ how_many is_init states.now }
{
    states.iter().filter(|state| state.init).count()
}

// The item of a state without parameters.
fn plain_item<V: Value>(name: u8) -> Item<V>
    ensures { result ≡ plain_item (value_kind V.Value) name }
{
    Item {
        name,
        first: V::filler(),
        second: V::filler(),
        third: V::filler(),
    }
}

// Puts the item of a state in, if the state is init.
fn start_one<S: Shelf>(shelf: &mut S, name: u8, state: &State)
    requires room { length (started_with (value_kind S.Of.Value) name state.now (S.Shelf.items shelf.old)) ≤ S.Shelf.limit shelf.old }
    ensures limit { S.Shelf.limit shelf.new ≡ S.Shelf.limit shelf.old }
    ensures items { S.Shelf.items shelf.new ≡ started_with (value_kind S.Of.Value) name state.now (S.Shelf.items shelf.old) }
{
    if state.init {
        shelf.add(plain_item(name));
    }
}

// Puts the init items on an empty shelf that has room for them.
pub fn start_items<S: Shelf>(shelf: &mut S, states: &[State])
    requires empty { S.Shelf.items shelf.old ≡ [] }
    requires few { length states.now ≤ 32 }
    requires room { how_many is_init states.now ≤ S.Shelf.limit shelf.old }
    ensures limit { S.Shelf.limit shelf.new ≡ S.Shelf.limit shelf.old }
    ensures items { S.Shelf.items shelf.new ≡ inits_from (value_kind S.Of.Value) 0 states.now }
{
    for (i, state) in states.iter().enumerate() {
        start_one(shelf, i as u8, state);
    }
}

// Counts the item of a state, if the state is init.
fn count_one(tallies: &mut [Tally; 32], name: u8, state: &State)
    ensures { tallies.new ≡ counted_with name state.now tallies.old }
{
    if state.init {
        let more = Tally {
            started: 1,
            ..Tally::default()
        };
        count_name(tallies, name, more);
    }
}

// Counts the init items as started.
pub fn count_starts(tallies: &mut [Tally; 32], states: &[State])
    requires few { length states.now ≤ 32 }
    requires room { RoomFor (length states.now) tallies.old }
    ensures { Started states.now tallies.old tallies.new }
{
    for (i, state) in states.iter().enumerate() {
        count_one(tallies, i as u8, state);
    }
}

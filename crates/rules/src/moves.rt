// Moves: the changes that an event lists, one after the other.
use items::Item;

// Why an item is moved.
#[derive(Clone, Copy, PartialEq, Eq)]
pub enum Cause {
    // a row of it fired, so it leaves
    Fired,
    // it is step or next and none of its rows fired, so it leaves
    Lapsed,
    // a fired row asks for it
    Asked,
    // a fired row strikes it
    Struck,
}

// One change: an item, and why it is moved.
#[derive(Clone, Copy)]
pub struct Move<V> {
    pub cause: Cause,
    pub item: Item<V>,
}

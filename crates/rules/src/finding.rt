// Findings: what an event or the close has found wrong.
use crate::fault::Fault;
use items::Item;

#[derive(Clone, Copy)]
pub struct Finding<V> {
    // how many events were accepted when it was found, that event included
    pub event: u32,
    pub fault: Fault,
    // the item that caused it
    pub item: Item<V>,
}

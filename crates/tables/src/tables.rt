// The tables that a script builds.
use sheets::tables::KINDS;
use sheets::{EventKind, Row, State};

#[derive(Drop)]
pub struct Tables<V: Copy> {
    pub(crate) states: Vec<State>,
    pub(crate) rows: Vec<Row>,
    pub(crate) kinds: [EventKind; KINDS],
    pub(crate) constants: Vec<V>,
}

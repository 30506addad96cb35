// Which items of a state an event can touch: each one, those of one first value, or none.
#[derive(Clone, Copy)]
pub enum Scope<V> {
    Every,
    Only(V),
    Nothing,
}

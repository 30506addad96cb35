// One of the two shelves.
use indexed::IndexedShelf;
use sorted::SortedShelf;
use values::Bucketed;

#[derive(Drop)]
pub enum AnyShelf<V: Bucketed> {
    Sorted(SortedShelf<V>),
    Indexed(IndexedShelf<V>),
}

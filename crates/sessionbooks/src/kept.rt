// The books of a session.
use anyshelf::AnyShelf;
use books::Book;
use items::Item;
use values::Bucketed;

#[derive(Drop)]
pub struct SessionBooks<V: Bucketed> {
    // The latest book.
    latest: Option<Book<AnyShelf<V>>>,
    // The one made before it.
    before: Option<Book<AnyShelf<V>>>,
    // The items for the next book's shelf.
    held: Vec<Item<V>>,
}

mod made;
pub mod obeying;
mod told;
mod used;

// A line that makes a book, or calls one.
use crate::make::Make;
use items::Item;
use records::Event;

// How many places the two buffers have that are lent to a call.
#[derive(Clone, Copy)]
pub struct Rooms {
    pub moves: usize,
    pub findings: usize,
}

#[derive(Drop)]
pub enum BookLine<V: Copy> {
    // Puts the item on the next book's shelf.
    Hold { item: Item<V> },
    // Makes a blank book on a shelf of that many cells.
    Book { make: Make, cells: usize },
    // Opens the book.
    Open,
    // Hands the book an event, with buffers of so many places.
    Put { rooms: Rooms, event: Event<V> },
    // Hands the book a batch.
    Batch { rooms: Rooms, bytes: Vec<u8> },
    // Hands the book the batch in a file.
    Deliver { rooms: Rooms, path: String },
    // Closes the book.
    End { findings: usize },
    // Lists the open items.
    List { room: usize },
    // Tells the counts of a state name.
    Tally { name: u8 },
    // Compares the book with the one made before it.
    Compare,
}

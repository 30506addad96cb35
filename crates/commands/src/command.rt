// What a session is asked to do.
use booklines::BookLine;
use records::Event;
use tablelines::TableLine;

#[derive(Drop)]
pub enum Command<V: Copy> {
    // Changes the tables.
    Table(TableLine<V>),
    // Loads the tables into the sheet.
    Load,
    // Says whether the loaded sheet is keyed.
    Keyed,
    // Makes a book, or calls one.
    OnBook(BookLine<V>),
    // Reads a batch to its end or its first refusal.
    Read { batch: Vec<u8> },
    // Writes one record into a buffer of that many bytes.
    Write { room: usize, event: Event<V> },
}

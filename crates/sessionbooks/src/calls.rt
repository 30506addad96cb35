// The calls of a book, and what they answer.
use answers::{Fault, Output, show_batched, show_ended, show_listed, show_opened, show_put};
use booklines::Rooms;
use books::Book;
use items::Shelf;
use records::Event;
use scripts::ScriptValue;
use sheets::Sheet;
use shelving::{finding_room, item_room, move_room};
use std::alloc::Global;

// Opens a book.
pub fn open<V: ScriptValue, S: Shelf<Of = V>>(
    out: &mut Output,
    sheet: &Sheet<V>,
    book: &mut Book<S>,
) -> Result<(), Fault> {
    let answer = book.open(sheet);
    show_opened(out, answer)?;
    Ok(())
}

// Hands a book an event, with new buffers of so many places.
pub fn put<V: ScriptValue, S: Shelf<Of = V>>(
    heap: Global,
    out: &mut Output,
    sheet: &Sheet<V>,
    book: &mut Book<S>,
    rooms: Rooms,
    event: &Event<V>,
) -> Result<(), Fault> {
    let mut moves = move_room(heap, rooms.moves)?;
    let mut findings = finding_room(heap, rooms.findings)?;
    let answer = book.put(sheet, event, moves.as_mut_slice(), findings.as_mut_slice());
    show_put(out, answer, moves.as_slice(), findings.as_slice())?;
    Ok(())
}

// Hands a book a batch, with new buffers of so many places.
pub fn batch<V: ScriptValue, S: Shelf<Of = V>>(
    heap: Global,
    out: &mut Output,
    sheet: &Sheet<V>,
    book: &mut Book<S>,
    rooms: Rooms,
    bytes: &[u8],
) -> Result<(), Fault> {
    let mut moves = move_room(heap, rooms.moves)?;
    let mut findings = finding_room(heap, rooms.findings)?;
    let answer = book.batch(sheet, bytes, moves.as_mut_slice(), findings.as_mut_slice());
    show_batched(out, answer, moves.as_slice(), findings.as_slice())?;
    Ok(())
}

// Closes a book, with a new buffer of so many places.
pub fn end<V: ScriptValue, S: Shelf<Of = V>>(
    heap: Global,
    out: &mut Output,
    sheet: &Sheet<V>,
    book: &mut Book<S>,
    findings: usize,
) -> Result<(), Fault> {
    let mut findings = finding_room(heap, findings)?;
    let answer = book.end(sheet, findings.as_mut_slice());
    show_ended(out, answer, findings.as_slice())?;
    Ok(())
}

// Lists the open items of a book into a new buffer of so many places.
pub fn list<V: ScriptValue, S: Shelf<Of = V>>(
    heap: Global,
    out: &mut Output,
    book: &Book<S>,
    room: usize,
) -> Result<(), Fault> {
    let mut room = item_room(heap, room)?;
    let count = book.list(room.as_mut_slice());
    show_listed(out, count, room.as_slice())?;
    Ok(())
}

// Calls of a book that take events: the places of the two buffers come first.
ghost use Rattle.std.specs.Prelude.{◌≡◌};
ghost use Rattle.scripts.specs.Decimals.{number_in, room_in};
ghost use Rattle.bookwords.specs.BookLines.{rooms_in};

use booklines::{BookLine, Rooms};
use scripts::{Misfit, ScriptValue, bytes_of, event_of, room};
use std::alloc::Global;

// The places of the two buffers.
fn rooms(moves: &str, findings: &str) -> Result<Rooms, Misfit>
    ensures { result ≡ rooms_in (room_in (number_in moves.now)) (room_in (number_in findings.now)) }
{
    Ok(Rooms {
        moves: room(moves)?,
        findings: room(findings)?,
    })
}

// `put MOVES FINDINGS KIND F=V..`
pub fn put<V: ScriptValue>(heap: Global, words: &[&str]) -> Result<BookLine<V>, Misfit> {
    match words {
        [moves, findings, kind, fields @ ..] => Ok(BookLine::Put {
            rooms: rooms(moves, findings)?,
            event: event_of(heap, kind, fields)?,
        }),
        _ => Err(Misfit::MissingWord),
    }
}

// `batch MOVES FINDINGS HEX`; without the hexadecimal it is the empty batch.
pub fn batch<V: Copy>(heap: Global, words: &[&str]) -> Result<BookLine<V>, Misfit> {
    match words {
        [moves, findings] => Ok(BookLine::Batch {
            rooms: rooms(moves, findings)?,
            bytes: Vec::new(heap),
        }),
        [moves, findings, bytes] => Ok(BookLine::Batch {
            rooms: rooms(moves, findings)?,
            bytes: bytes_of(heap, bytes)?,
        }),
        [_, _, _, ..] => Err(Misfit::TooManyWords),
        _ => Err(Misfit::MissingWord),
    }
}

// `deliver MOVES FINDINGS PATH`
pub fn deliver<V: Copy>(heap: Global, words: &[&str]) -> Result<BookLine<V>, Misfit> {
    match words {
        [moves, findings, path] => Ok(BookLine::Deliver {
            rooms: rooms(moves, findings)?,
            path: String::from_str(heap, path)?,
        }),
        [_, _, _, ..] => Err(Misfit::TooManyWords),
        _ => Err(Misfit::MissingWord),
    }
}

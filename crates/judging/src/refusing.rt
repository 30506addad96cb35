// Whether the calls of a book are refused, in the order of judging.
ghost use Rattle.std.specs.Prelude.{◌≡◌, length, take, IfOk};
ghost use Rattle.refusals.specs.Telling.{answer_of};
ghost use Rattle.rules.specs.Kinds.{value_kind};
ghost use Rattle.rules.specs.Step.{new_set};
ghost use Rattle.judging.specs.Judging.{AllFit, MayEnd, MayOpen, early_by, end_by, late_by, open_by};

use items::Shelf;
use records::event::LARGEST_KIND;
use refusals::Refusal;
use rules::{Move, Phase, PhaseCall};
use step::new_size;
use values::Value;

// The most events that a book accepts.
const MOST_EVENTS: u32 = 1000000;

// Judges an open, on a shelf that holds so many items, of that limit, where there are so many init items.
pub fn judge_open(phase: Phase, held: usize, limit: usize, inits: usize) -> Result<(), Refusal>
    ensures answer { result ≡ answer_of (open_by phase held limit inits) }
    ensures may { IfOk result (λ _. MayOpen phase held limit inits) }
{
    let mut next = phase;
    next.advance(PhaseCall::Open)?;
    if held > 0 {
        Err(Refusal::ShelfNotEmpty)
    } else if inits > limit {
        Err(Refusal::ShelfFull { place: 0 })
    } else {
        Ok(())
    }
}

// Judges an event of that kind, whose record stands at that place, before its moves are listed.
pub fn judge_early(place: usize, phase: Phase, kind: u8, accepted: u32) -> Result<(), Refusal>
    ensures { result ≡ answer_of (early_by place phase kind accepted) }
{
    let mut next = phase;
    next.advance(PhaseCall::Take)?;
    if kind > LARGEST_KIND {
        Err(Refusal::Malformed { place })
    } else if accepted >= MOST_EVENTS {
        Err(Refusal::TooManyEvents { place })
    } else {
        Ok(())
    }
}

// Judges an event once its moves are listed: there are so many moves, of which the buffer holds what it has room for, and so many findings.
pub fn judge_late<V: Value, S: Shelf<Of = V>>(
    shelf: &S,
    place: usize,
    buffer: &[Move<V>],
    moves: u128,
    room: usize,
    findings: u128,
) -> Result<(), Refusal>
    ensures answer { result ≡ answer_of (late_by place (length buffer.now) moves room findings (S.Shelf.limit shelf.now) (length (new_set (value_kind V.Value) (take moves buffer.now) (S.Shelf.items shelf.now)))) }
    ensures fits { IfOk result (λ _. AllFit (length buffer.now) moves room findings (S.Shelf.limit shelf.now) (length (new_set (value_kind V.Value) (take moves buffer.now) (S.Shelf.items shelf.now)))) }
{
    if moves > buffer.len() as u128 {
        return Err(Refusal::TooManyMoves { place });
    }
    if findings > room as u128 {
        return Err(Refusal::TooManyFindings { place });
    }
    if new_size(shelf, &buffer[0..moves as usize]) > shelf.limit() as u128 {
        return Err(Refusal::ShelfFull { place });
    }
    Ok(())
}

// Judges an end, where so many findings are to be written and there is so much room for them.
pub fn judge_end(phase: Phase, room: usize, findings: u128) -> Result<(), Refusal>
    ensures answer { result ≡ answer_of (end_by phase room findings) }
    ensures may { IfOk result (λ _. MayEnd phase room findings) }
{
    let mut next = phase;
    next.advance(PhaseCall::End)?;
    if findings > room as u128 {
        Err(Refusal::TooManyFindings { place: 0 })
    } else {
        Ok(())
    }
}

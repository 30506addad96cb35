// Moves, findings and items, one to a line, indented.
ghost use Rattle.std.specs.Prelude.{◌≡◌, ◌==◌, ◌≤◌, length, position, take, slice_get, All, IfSome};
ghost use Rattle.answers.specs.Shown.{IsWritten, untouched_item, untouched_name};

use crate::front::front;
use crate::output::Output;
use items::Item;
use rules::{Finding, Move};
use scripts::ScriptValue;
use std::io;
use std::io::Write;

// The name of the items in a new buffer: no state has it, since a sheet has 32 states at most.
const UNTOUCHED: u8 = 255;

// The item in every place of a new buffer.
pub fn untouched<V: ScriptValue>() -> Item<V>
    ensures { result ≡ untouched_item V.Value.blank }
{
    let filler = V::filler();
    Item {
        name: UNTOUCHED,
        first: filler,
        second: filler,
        third: filler,
    }
}

// The first place that was left untouched.
fn first_untouched<V>(moves: &[Move<V>]) -> Option<usize>
    ensures { result ≡ position (λ m. m.item.name == untouched_name) moves.now }
{
    moves
        .iter()
        .position(|change| change.item.name == UNTOUCHED)
}

// How many moves stand in front of the first place that was left untouched.
fn written<V>(moves: &[Move<V>]) -> usize
    ensures within { result ≤ length moves.now }
    ensures written { All IsWritten (take result moves.now) }
    ensures untouched { IfSome (slice_get moves.now result) (λ m. m.item.name ≡ untouched_name) }
{
    first_untouched(moves).unwrap_or(moves.len())
}

// The moves from the front up to the first that was left untouched.
pub fn show_moves<V: ScriptValue>(out: &mut Output, moves: &[Move<V>]) -> io::Result<()> {
    for change in front(moves, written(moves)) {
        writeln!(out, "  {change}")?;
    }
    Ok(())
}

// The findings.
pub fn show_findings<V: ScriptValue>(out: &mut Output, findings: &[Finding<V>]) -> io::Result<()> {
    for finding in findings {
        writeln!(out, "  finding {finding}")?;
    }
    Ok(())
}

// The items.
pub fn show_items<V: ScriptValue>(out: &mut Output, items: &[Item<V>]) -> io::Result<()> {
    for item in items {
        writeln!(out, "  item {item}")?;
    }
    Ok(())
}

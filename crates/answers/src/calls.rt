// What the calls of a book answer.
ghost use Rattle.std.specs.Prelude.{◌≡◌};
ghost use Rattle.answers.specs.Shown.{compared_text, shown_counts};

use crate::front::front;
use crate::moves::{show_findings, show_items, show_moves};
use crate::output::Output;
use crate::refused::show_refusal;
use items::Item;
use refusals::Refusal;
use rules::{Accepted, Batched, Counts, Finding, Move};
use scripts::ScriptValue;
use std::io;
use std::io::Write;

// What `open` answered.
pub fn show_opened(out: &mut Output, answer: Result<(), Refusal>) -> io::Result<()> {
    match answer {
        Ok(()) => writeln!(out, "opened"),
        Err(refusal) => show_refusal(out, refusal),
    }
}

// What `put` answered, and what it left in the buffers.
pub fn show_put<V: ScriptValue>(
    out: &mut Output,
    answer: Result<Accepted, Refusal>,
    moves: &[Move<V>],
    findings: &[Finding<V>],
) -> io::Result<()> {
    match answer {
        Ok(accepted) => {
            let moved = accepted.moves;
            let found = accepted.findings;
            writeln!(out, "accepted moves {moved} findings {found}")?;
            show_moves(out, moves)?;
            show_findings(out, front(findings, found))
        }
        Err(refusal) => {
            show_refusal(out, refusal)?;
            show_moves(out, moves)
        }
    }
}

// What `batch` answered, and what it left in the buffers.
pub fn show_batched<V: ScriptValue>(
    out: &mut Output,
    answer: Batched,
    moves: &[Move<V>],
    findings: &[Finding<V>],
) -> io::Result<()> {
    let accepted = answer.accepted;
    let found = answer.findings;
    writeln!(out, "batch accepted {accepted} findings {found}")?;
    if let Some(refusal) = answer.refusal {
        show_refusal(out, refusal)?;
    }
    show_moves(out, moves)?;
    show_findings(out, front(findings, found))
}

// What `end` answered, and the findings that it left.
pub fn show_ended<V: ScriptValue>(
    out: &mut Output,
    answer: Result<usize, Refusal>,
    findings: &[Finding<V>],
) -> io::Result<()> {
    match answer {
        Ok(found) => {
            writeln!(out, "ended findings {found}")?;
            show_findings(out, front(findings, found))
        }
        Err(refusal) => show_refusal(out, refusal),
    }
}

// How many items are open, and those that were listed, as far as the room reaches.
pub fn show_listed<V: ScriptValue>(
    out: &mut Output,
    count: usize,
    room: &[Item<V>],
) -> io::Result<()> {
    writeln!(out, "listed {count}")?;
    show_items(out, front(room, count))
}

// The seven counts of a name, in the order in which they are shown.
fn in_order(counts: Counts) -> [u128; 7]
    ensures { result ≡ shown_counts counts }
{
    [
        counts.kept.started,
        counts.kept.asked,
        counts.kept.repeats,
        counts.kept.fired,
        counts.kept.lapsed,
        counts.kept.struck,
        counts.open,
    ]
}

// The seven counts of a name.
fn show_counts(out: &mut Output, counts: Counts) -> io::Result<()> {
    let [started, asked, repeats, fired, lapsed, struck, open] = in_order(counts);
    writeln!(
        out,
        "tally {started} {asked} {repeats} {fired} {lapsed} {struck} {open}"
    )
}

// What `tally` answered.
pub fn show_tally(out: &mut Output, answer: Result<Counts, Refusal>) -> io::Result<()> {
    match answer {
        Ok(counts) => show_counts(out, counts),
        Err(refusal) => show_refusal(out, refusal),
    }
}

// Whether two books agree, in a word.
fn compared_word(agree: bool) -> &'static str
    ensures { result.now ≡ compared_text agree }
{
    if agree { "agree" } else { "differ" }
}

// Says whether two books agree.
pub fn show_compared(out: &mut Output, agree: bool) -> io::Result<()> {
    let answer = compared_word(agree);
    writeln!(out, "books {answer}")
}

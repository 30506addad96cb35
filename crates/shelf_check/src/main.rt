// Makes the same calls on both shelves, and prints what they answered and whether they answered alike.

#![tactic(auto)]

mod answers;
mod calls;
mod drawing;

use answers::Answers;
use anyshelf::AnyShelf;
use calls::first_difference;
use drawing::{Drawn, cells};
use indexed::IndexedShelf;
use items::Shelf;
use sorted::SortedShelf;
use std::io;
use values::{Number, Reference};

fn report(
    rt: &HostRuntime,
    title: &str,
    limit: usize,
    answers: &Answers,
    difference: Option<usize>,
) -> io::Result<()> {
    print!(rt; "{title}, limit {limit}: {answers}, ")?;
    match difference {
        None => println!(rt; "alike"),
        Some(call) => println!(rt; "differ at call {call}"),
    }
}

// The two shelves of one kind of value, at a limit.
fn compare<V: Drawn>(rt: &HostRuntime, title: &str, limit: usize) -> io::Result<()> {
    let heap = rt.alloc();
    let mut sorted = SortedShelf::<V>::new(cells(heap, limit)?);
    let mut indexed = IndexedShelf::<V>::new(heap, cells(heap, limit)?)?;
    let mut answers = Answers::default();
    let difference = first_difference(&mut sorted, &mut indexed, &mut answers);
    report(rt, title, limit, &answers, difference)
}

// The same, where the shelves are chosen at run time.
fn compare_any<V: Drawn>(rt: &HostRuntime, title: &str, limit: usize) -> io::Result<()> {
    let heap = rt.alloc();
    let mut sorted = AnyShelf::Sorted(SortedShelf::<V>::new(cells(heap, limit)?));
    let mut indexed = AnyShelf::Indexed(IndexedShelf::<V>::new(heap, cells(heap, limit)?)?);
    let mut answers = Answers::default();
    let difference = first_difference(&mut sorted, &mut indexed, &mut answers);
    report(rt, title, limit, &answers, difference)
}

fn main(rt: HostRuntime) -> io::Result<()> {
    for limit in [0, 1, 7, 1000] {
        compare::<Number>(&rt, "numbers", limit)?;
    }
    for limit in [0, 1, 7, 1000] {
        compare::<Reference>(&rt, "references", limit)?;
    }
    compare_any::<Number>(&rt, "numbers, shelf chosen at run time", 7)
}

// Times the calls of each shelf. Each argument is a number of items; with none, it says so and ends.

#![tactic(auto)]

mod work;

use indexed::IndexedShelf;
use items::Shelf;
use sorted::SortedShelf;
use std::time::Instant;
use std::{env, io};
use values::Number;
use work::{add_all, cells, holds_all, list_all, next_all, remove_all};

// Prints how many items a step took and how long it was.
fn show(rt: &HostRuntime, step: &str, count: usize, start: Instant) -> io::Result<()> {
    let micros = start.elapsed(rt)?.as_micros();
    println!(rt; "  {step:<22}{count:>8} items {micros:>10} us")
}

fn measure<S: Shelf<Of = Number>>(rt: &HostRuntime, shelf: &mut S, size: u64) -> io::Result<()> {
    let start = Instant::now(rt)?;
    show(rt, "add all", add_all(shelf, size), start)?;
    let start = Instant::now(rt)?;
    show(rt, "holds all", holds_all(shelf, size), start)?;
    let start = Instant::now(rt)?;
    show(rt, "next with first value", next_all(shelf, size), start)?;
    let start = Instant::now(rt)?;
    show(rt, "list all in order", list_all(shelf), start)?;
    let start = Instant::now(rt)?;
    show(rt, "remove all", remove_all(shelf, size), start)
}

fn measure_both(rt: &HostRuntime, size: u64) -> io::Result<()> {
    let heap = rt.alloc();
    println!(rt; "sorted shelf, {size} items")?;
    let mut sorted = SortedShelf::new(cells(heap, size)?);
    measure(rt, &mut sorted, size)?;
    println!(rt; "indexed shelf, {size} items")?;
    let mut indexed = IndexedShelf::new(heap, cells(heap, size)?)?;
    measure(rt, &mut indexed, size)
}

fn main(rt: HostRuntime) -> io::Result<()> {
    let mut given = false;
    for word in env::args(&rt)?.skip(1) {
        given = true;
        match word.parse::<u64>() {
            Ok(size) => measure_both(&rt, size.min(65536))?,
            Err(_) => println!(rt; "{word} is no number of items")?,
        }
    }
    if !given {
        println!(rt; "no number of items is given")?;
    }
    Ok(())
}

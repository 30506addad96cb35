// The steps that are timed. Each answers how many items it had to do with.
use items::{Added, Item, Shelf, count_of};
use std::alloc::{AllocError, Global};
use values::Number;

// How many names the items have.
const NAMES: u8 = 8;

// The item of a number: no two numbers have one item, and items of neighbours lie far apart in the order.
fn item(i: u64) -> Item<Number> {
    let none = Number { value: 0 };
    Item {
        name: (i % 8) as u8,
        first: Number {
            value: i.wrapping_mul(0x9e37_79b9_7f4a_7c15),
        },
        second: none,
        third: none,
    }
}

// As many cells, to make a shelf over.
pub fn cells(heap: Global, size: u64) -> Result<Vec<Item<Number>>, AllocError> {
    Ok(vec![in heap; item(0); size as usize]?)
}

pub fn add_all<S: Shelf<Of = Number>>(shelf: &mut S, size: u64) -> usize {
    (0..size)
        .filter(|i| shelf.add(item(*i)) == Added::Put)
        .count()
}

pub fn holds_all<S: Shelf<Of = Number>>(shelf: &S, size: u64) -> usize {
    (0..size).filter(|i| shelf.holds(&item(*i))).count()
}

pub fn next_all<S: Shelf<Of = Number>>(shelf: &S, size: u64) -> usize {
    (0..size)
        .map(item)
        .filter(|x| shelf.next(x.name, Some(x.first), None).is_some())
        .count()
}

pub fn list_all<S: Shelf<Of = Number>>(shelf: &S) -> usize {
    (0..NAMES).fold(0, |count: usize, name| {
        count.saturating_add(count_of(shelf, name))
    })
}

pub fn remove_all<S: Shelf<Of = Number>>(shelf: &mut S, size: u64) -> usize {
    (0..size).filter(|i| shelf.remove(&item(*i))).count()
}

// The calls on two shelves, and whether they answer alike.
use crate::answers::Answers;
use crate::drawing::{Draw, Drawn, item};
use items::{Item, Shelf};
use listing::same_items;

// How many calls are made.
const CALLS: usize = 800;

fn add_to_both<V: Drawn, S: Shelf<Of = V>, T: Shelf<Of = V>>(
    one: &mut S,
    other: &mut T,
    answers: &mut Answers,
    x: Item<V>,
) -> bool {
    let a = one.add(x);
    let b = other.add(x);
    answers.count_added(a);
    a == b
}

fn remove_from_both<V: Drawn, S: Shelf<Of = V>, T: Shelf<Of = V>>(
    one: &mut S,
    other: &mut T,
    answers: &mut Answers,
    x: Item<V>,
) -> bool {
    let a = one.remove(&x);
    let b = other.remove(&x);
    answers.count_removed(a);
    a == b
}

// Takes the least item of a name out, if the first shelf has one.
fn remove_least_from_both<V: Drawn, S: Shelf<Of = V>, T: Shelf<Of = V>>(
    one: &mut S,
    other: &mut T,
    answers: &mut Answers,
    name: u8,
) -> bool {
    match one.next(name, None, None) {
        Some(least) => remove_from_both(one, other, answers, least),
        None => true,
    }
}

fn held_by_both<V: Drawn, S: Shelf<Of = V>, T: Shelf<Of = V>>(
    one: &S,
    other: &T,
    x: Item<V>,
) -> bool {
    one.holds(&x) == other.holds(&x)
}

fn sizes_of_both<V: Drawn, S: Shelf<Of = V>, T: Shelf<Of = V>>(one: &S, other: &T) -> bool {
    one.count() == other.count() && one.limit() == other.limit()
}

fn stand_alike<V: Drawn, S: Shelf<Of = V>, T: Shelf<Of = V>>(one: &S, other: &T) -> bool {
    sizes_of_both(one, other) && same_items(one, other)
}

fn next_of_both<V: Drawn, S: Shelf<Of = V>, T: Shelf<Of = V>>(
    one: &S,
    other: &T,
    answers: &mut Answers,
    name: u8,
    first: Option<V>,
    above: Option<Item<V>>,
) -> bool {
    let a = one.next(name, first, above);
    let b = other.next(name, first, above);
    answers.count_found(a.is_some());
    a == b
}

// One call, as the numbers drawn tell, on both shelves.
fn call_both<V: Drawn, S: Shelf<Of = V>, T: Shelf<Of = V>>(
    one: &mut S,
    other: &mut T,
    answers: &mut Answers,
    draw: &mut Draw,
) -> bool {
    let x = item(draw);
    match draw.next() {
        0..=5 => add_to_both(one, other, answers, x),
        6 => remove_from_both(one, other, answers, x),
        7 => remove_least_from_both(one, other, answers, x.name),
        8..=9 => held_by_both(one, other, x),
        10..=11 => next_of_both(one, other, answers, x.name, None, None),
        12..=13 => next_of_both(one, other, answers, x.name, None, Some(x)),
        14 => next_of_both(one, other, answers, x.name, Some(x.first), None),
        _ => next_of_both(one, other, answers, x.name, Some(x.first), Some(x)),
    }
}

// The number of the first call that the two shelves do not answer alike, if there is one.
pub fn first_difference<V: Drawn, S: Shelf<Of = V>, T: Shelf<Of = V>>(
    one: &mut S,
    other: &mut T,
    answers: &mut Answers,
) -> Option<usize> {
    let mut draw = Draw::new();
    for number in 0..CALLS {
        let alike = call_both(one, other, answers, &mut draw);
        if !alike || !stand_alike(one, other) {
            return Some(number);
        }
    }
    None
}

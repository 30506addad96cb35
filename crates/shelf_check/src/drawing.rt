// A fixed list of numbers that look random, and the items that are made of them.
use items::Item;
use std::alloc::{AllocError, Global};
use values::{Bucketed, Number, Reference, Value};

// The numbers of a linear congruential generator, from a fixed start on.
#[derive(Drop)]
pub struct Draw {
    state: u64,
}

impl Draw {
    pub fn new() -> Draw {
        Draw { state: 2024 }
    }

    // The next number, below 16 at most.
    pub fn next(&mut self) -> u8 {
        self.state = self
            .state
            .wrapping_mul(6364136223846793005)
            .wrapping_add(1442695040888963407);
        (self.state >> 60) as u8
    }
}

// A kind of value that can be made of a small number.
pub trait Drawn: Bucketed {
    fn drawn(n: u8) -> Self;
}

impl Drawn for Number {
    fn drawn(n: u8) -> Number {
        Number {
            value: u64::from(n),
        }
    }
}

impl Drawn for Reference {
    fn drawn(n: u8) -> Reference {
        Reference::from_bytes(&[b'r', 1 + n % 16]).unwrap_or(Reference::filler())
    }
}

// An item of one of four names, with first values of eight and others of two.
pub fn item<V: Drawn>(draw: &mut Draw) -> Item<V> {
    Item {
        name: draw.next() % 4,
        first: V::drawn(draw.next() % 8),
        second: V::drawn(draw.next() % 2),
        third: V::drawn(draw.next() % 2),
    }
}

// As many cells, to make a shelf over.
pub fn cells<V: Drawn>(heap: Global, limit: usize) -> Result<Vec<Item<V>>, AllocError> {
    let filler = V::filler();
    let blank = Item {
        name: 0,
        first: filler,
        second: filler,
        third: filler,
    };
    Ok(vec![in heap; blank; limit]?)
}

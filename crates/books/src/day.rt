// What the calls of one whole day came back with.
use crate::book::Book;
use refusals::Refusal;
use rules::Batched;

#[derive(Drop)]
pub struct Day<S> {
    pub book: Book<S>,
    pub opened: Result<(), Refusal>,
    pub batched: Batched,
    pub ended: Result<usize, Refusal>,
}

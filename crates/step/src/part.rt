// What is counted of a name.
use rules::Cause;

#[derive(Clone, Copy)]
pub enum Part {
    // asks
    Ask,
    // asks whose item was there before, or was asked for earlier
    Repeat,
    // items that are gone, by the first cause that applies
    Out(Cause),
}

// An item: a state name and three values of one kind. The derived order is by name, then by first, second and third value.
#[derive(Clone, Copy, PartialEq, Eq, PartialOrd, Ord)]
pub struct Item<V> {
    pub name: u8,
    pub first: V,
    pub second: V,
    pub third: V,
}

// The largest kind that may stand in a record.
pub const LARGEST_KIND: u8 = 63;

// A posting: its kind, from 0 to 63 where it is to be accepted, and its eight fields, each absent or a value.
#[derive(Clone, Copy)]
pub struct Event<V> {
    pub kind: u8,
    pub field1: Option<V>,
    pub field2: Option<V>,
    pub field3: Option<V>,
    pub field4: Option<V>,
    pub field5: Option<V>,
    pub field6: Option<V>,
    pub field7: Option<V>,
    pub field8: Option<V>,
}

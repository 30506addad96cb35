// What the close of a book finds: its hot items.
ghost use Rattle.sheets.specs.Tables.{state_of};
ghost use Rattle.rules.specs.declared.fault.Fault.TheVariants.{HotAtClose};

use firing::state_of;
use items::Item;
use listing::Listing;
use rules::{Fault, Finding};
use sheets::State;
use values::Value;

// The items of hot states as findings of the close, when so many events are accepted.
#[derive(Drop)]
pub struct Closing<'a> {
    pub accepted: u32,
    pub states: &'a [State],
}

impl<'a, V: Value> Listing<V, Finding<V>> for Closing<'a> {
    ghost takes = { λ c n. (state_of c.states.now n).hot };

    ghost shows = { λ c x. record { event = c.accepted; fault = HotAtClose; item = x } };

    fn takes(&self, name: u8) -> bool {
        state_of(self.states, name).hot
    }

    fn show(&self, item: &Item<V>) -> Finding<V> {
        Finding {
            event: self.accepted,
            fault: Fault::HotAtClose,
            item: *item,
        }
    }
}
